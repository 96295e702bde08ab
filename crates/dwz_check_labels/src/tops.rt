//! The label of a top.

ghost use Rattle.std.specs.Prelude.{◌≡◌, ℕ, ◌<◌, List, OnOk};
ghost use Rattle.dwz_def_reading.specs.Documents.{DwUnit};
ghost use Rattle.dwz_def_reading.specs.Units.{entries_in};
ghost use Rattle.dwz_def_cross.specs.Tops.{CrossTop};
ghost use Rattle.dwz_def_check.specs.CrossLabels.{cross_label, cross_targets, cross_top_map};
ghost use Rattle.dwz_def_check.specs.CrossNames.{CrossName, cross_names_from};
ghost use Rattle.dwz_check_index.specs.Index.{IsTopEntry, listed_units};
ghost use Rattle.dwz_check_labels.specs.Files.{IsReady, KnowsSource, raw_of};
ghost use Rattle.dwz_check_labels.specs.Told.{Tells};

use crate::entries::put_entries;
use crate::names::put_spaces_to;
use crate::source::Source;
use dwz_check_index::TopEntry;
use dwz_label_entries::Scratch;
use dwz_model::NoMemory;

/// Appends the label of a top of the file: the names of the spaces that it stands in, and what its entries say; and the numbers of the
/// tops that their references lead into.
pub fn put_top(
    source: &Source,
    out: &mut Vec<u8>,
    tops: &mut Vec<u32>,
    top: &TopEntry,
    scratch: &mut Scratch,
) -> Result<(), NoMemory>
    requires ready { IsReady source.now }
    requires there { top.now.entry < entries_in (raw_of source.now) }
    requires outer { top.now.outer < entries_in (raw_of source.now) }
    ensures { (said : List (DwUnit ℕ)) (name : ℕ → CrossName) (n : ℕ) (t : CrossTop ℕ) (k : KnowsSource source.now said name)
        → IsTopEntry said (cross_names_from 0 k.own.top said) (listed_units said) n top.now t
        → OnOk result (Tells (cross_label (cross_top_map name t)) (cross_targets (cross_top_map name t)) out.old.items out.new.items
        tops.old.items tops.new.items) }
{
    put_spaces_to(out, &source.own, top.outer, &mut scratch.path)?;
    let end = source.own.units.entry(top.entry).end;
    put_entries(source, out, tops, top.entry, end, scratch)?;
    Ok(())
}
