//! What values say besides the entries that they name.

ghost use Rattle.std.specs.Prelude.{◌≡◌, ℕ, ◌++◌, List, Ok, OnOk, IfOk};
ghost use Rattle.dwz_def_reading.specs.declared.exprs.Operand.{Operand as OperandOfSpecs};
ghost use Rattle.dwz_def_reading.specs.Documents.{DwUnit, Value};
ghost use Rattle.dwz_def_reading.specs.Entries.{RawAttr};
ghost use Rattle.dwz_def_reading.specs.Classes.{OfCommonEntry, OfCommonText};
ghost use Rattle.dwz_def_reading.specs.Meanings.{MeaningContext};
ghost use Rattle.dwz_def_reading.specs.Meant.{as_class, meaning};
ghost use Rattle.dwz_def_reading.specs.Units.{RawUnit};
ghost use Rattle.dwz_label_entries.specs.Plain.{KnowsLine, TellsPlain};
ghost use Rattle.dwz_check_labels.specs.Files.{KnowsSource, raw_of, scope_at, texts_in};
ghost use Rattle.dwz_def_check.specs.CrossNames.{CrossName};
ghost use Rattle.dwz_graph.specs.Resolved.{IsHere, stored};

use crate::source::Source;
use dwz_codes::{Class, class_of};
use dwz_expr::Operand;
use dwz_forms::Raw;
use dwz_graph::{Here, offset_of};
use dwz_label::put_ref;
use dwz_label_entries::{Named, put_plain, put_text_at};
use dwz_model::{NoMemory, Pair};

// Of an entry of the common file, which one is told with the others that are named.
fn put_common_entry(out: &mut Vec<u8>) -> Result<Named, NoMemory>
    ensures { (s : MeaningContext ℕ) (a : RawAttr) (v : Value ℕ) (operands : List OperandOfSpecs) → as_class OfCommonEntry s a ≡ Ok v
        → IfOk result (λ named. TellsPlain s v operands out.old.items out.new.items named) }
{
    put_ref(out)?;
    Ok(Named::Next(1))
}

// Of a text of the common file, whose `.debug_str` that is.
fn put_common_text(
    out: &mut Vec<u8>,
    strs: &[u8],
    pair: &Pair,
    raw: &Raw,
) -> Result<Named, NoMemory>
    ensures { (s : MeaningContext ℕ) (at end : ℕ) (v : Value ℕ) (operands : List OperandOfSpecs) → texts_in s.around.common ≡ strs.now
        → as_class OfCommonText s (stored at end pair.now raw.now) ≡ Ok v
        → IfOk result (λ named. TellsPlain s v operands out.old.items out.new.items named) }
{
    let _pair = pair;
    put_text_at(out, strs, offset_of(raw))?;
    Ok(Named::Next(0))
}

/// Appends what a value says besides the entries that it names, and answers which these are; where they are those of operands, these are
/// kept. `line` is the number of its unit's line table. The value ends at `end`.
pub(crate) fn put_said(
    source: &Source,
    out: &mut Vec<u8>,
    here: &Here,
    line: Option<usize>,
    end: u64,
    pair: &Pair,
    raw: &Raw,
    operands: &mut Vec<Operand>,
) -> Result<Named, NoMemory>
    ensures { (said : List (DwUnit ℕ)) (name : ℕ → CrossName) (u : RawUnit) (at : ℕ) (v : Value ℕ) → KnowsSource source.now said name
        → IsHere (raw_of source.now) u here.now
        → KnowsLine (scope_at source.now u) (stored at end pair.now raw.now) source.now.tables.now line
        → meaning (scope_at source.now u) (stored at end pair.now raw.now) ≡ Ok v
        → IfOk result (λ named. TellsPlain (scope_at source.now u) v operands.new.items out.old.items out.new.items named) }
{
    let class = class_of(pair.form);
    match class {
        Class::CommonEntry => put_common_entry(out),
        Class::CommonText => put_common_text(out, source.own.common_strs, pair, raw),
        _ => {
            let named = put_plain(
                source.alloc,
                out,
                source.own.sections,
                source.tables,
                here,
                line,
                end,
                pair,
                raw,
                operands,
            )?;
            Ok(named)
        }
    }
}
