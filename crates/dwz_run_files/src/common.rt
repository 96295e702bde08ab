//! The texts of the common file.

ghost use Rattle.std.specs.Prelude.{◌≡◌, ◌<◌, ◌^◌, IfOk, length};
ghost use Rattle.dwz_def_reading.specs.ElfLayout.{too_large};
ghost use Rattle.dwz_law_layout.specs.Beside.{Alone};
ghost use Rattle.dwz_law_layout.specs.Facts.{RunFacts};
ghost use Rattle.dwz_law_layout.specs.Listed.{TextsAt};
ghost use Rattle.dwz_layout_order.specs.declared.orders.Settled.{Settled};
ghost use Rattle.dwz_def_encoding.specs.Placing.{lines_bytes, texts_bytes};
ghost use Rattle.dwz_run_files.specs.Common.{AreWhole, StandBefore};

use dwz_encode_common::{Pool, common_paths, common_texts, with_common};
use dwz_graph::{File, Graph};
use dwz_layout::{EntryTable, FileItems};
use dwz_model::NoMemory;
use std::alloc::Global;

/// The sections of the common file that hold texts.
#[derive(Drop)]
pub struct CommonTexts {
    /// `.debug_str`: its texts (DWARF 5, 7.5.5).
    pub strs: Vec<u8>,
    /// `.debug_line`: a line table with its paths (DWARF 5, 6.2.4).
    pub lines: Vec<u8>,
}

/// The lists that a layout looks into, with the texts of the common file.
#[derive(Drop)]
pub struct WholeLists<'u, 'a> {
    /// The lists.
    pub known: EntryTable<'u, 'a>,
    /// The texts of the common file, if there is one.
    pub common: Option<CommonTexts>,
}

// The sections of the common file that has these texts and these paths. NoMemory also where they are too long for places of four bytes.
fn sections_with(alloc: Global, texts: &Pool, paths: &Pool) -> Result<CommonTexts, NoMemory>
    ensures strs { IfOk result (λ c. c.strs.items ≡ texts_bytes texts.now) }
    ensures lines { IfOk result (λ c. c.lines.items ≡ lines_bytes paths.now) }
    ensures few_strs { IfOk result (λ c. length c.strs.items < 2 ^ 32) }
    ensures few_lines { IfOk result (λ c. length c.lines.items < too_large) }
{
    let strs = texts.section(alloc)?;
    let lines = paths.line_table(alloc)?;
    Ok(CommonTexts { strs, lines })
}

// The lists with the texts of a common file that has units, which are the first that are written.
fn with_texts<'u, 'a>(
    alloc: Global,
    graph: &Graph,
    files: &[File],
    importing: &[bool],
    orders: &[FileItems],
    known: EntryTable<'u, 'a>,
) -> Result<WholeLists<'u, 'a>, NoMemory>
    requires { (f : RunFacts Alone) × (s : Settled) × (t : TextsAt) × StandBefore graph.now.given files.now importing.now known orders.now f s t }
    ensures { (f : RunFacts Alone) (s : Settled) (t : TextsAt) → StandBefore graph.now.given files.now importing.now known.entry orders.now f s t
        → 0 < known.entry.commons → IfOk result (AreWhole f s orders.now) }
{
    let order = orders[0].as_slice();
    let texts = common_texts(alloc, graph, &known, order)?;
    let paths = common_paths(alloc, files, &known, order)?;
    let common = sections_with(alloc, &texts, &paths)?;
    let known = with_common(alloc, files, known, &texts, &paths, importing)?;
    Ok(WholeLists {
        known,
        common: Some(common),
    })
}

/// The lists of files that are prepared, in which texts stand as they were read, with the texts of the common file: a text of an entry that
/// is written there stands there, and one of a file that imports from it stands there if it is among its texts (DWARF 5, 7.3.6). `orders`
/// has the units of the common file and then those of each file that is written, and `importing` says of each file whether it imports from
/// the common file. Where that has no units, all stays as it was.
///
/// `NoMemory` also where a text or a path would have a place of more than four bytes.
pub(crate) fn whole_lists<'u, 'a>(
    alloc: Global,
    graph: &Graph,
    files: &[File],
    importing: &[bool],
    orders: &[FileItems],
    known: EntryTable<'u, 'a>,
) -> Result<WholeLists<'u, 'a>, NoMemory>
    requires { (f : RunFacts Alone) × (s : Settled) × (t : TextsAt) × StandBefore graph.now.given files.now importing.now known orders.now f s t }
    ensures { (f : RunFacts Alone) (s : Settled) (t : TextsAt) → StandBefore graph.now.given files.now importing.now known.entry orders.now f s t
        → IfOk result (AreWhole f s orders.now) }
{
    if known.commons == 0 {
        return Ok(WholeLists {
            known,
            common: None,
        });
    }
    with_texts(alloc, graph, files, importing, orders, known)
}
