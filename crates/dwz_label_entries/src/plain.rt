//! What values say besides the entries that they name.

ghost use Rattle.std.specs.Prelude.{◌≡◌, ℕ, ◌++◌, true, None, Ok, OnOk, IfOk, List};
ghost use Rattle.dwz_label_entries.specs.Plain.{KnowsLine, KnowsScope, TellsPlain, is_simple};
ghost use Rattle.dwz_def_reading.specs.Entries.{RawAttr};
ghost use Rattle.dwz_def_reading.specs.declared.exprs.Operand.{Operand as OperandOfSpecs};
ghost use Rattle.dwz_def_reading.specs.Documents.{Value};
ghost use Rattle.dwz_def_reading.specs.Classes;
ghost use Rattle.dwz_def_reading.specs.Meanings.{MeaningContext, str_offsets_base};
ghost use Rattle.dwz_def_reading.specs.Classes.{OfConstant, OfInfoEntry, OfOffset, OfUnitEntry};
ghost use Rattle.dwz_def_reading.specs.Meant.{as_class, meaning};
ghost use Rattle.dwz_graph.specs.Resolved.{sources_view, stored};

use crate::expressions::put_expr;
use crate::lists::{put_list_at, put_list_by_slot};
use crate::named::Named;
use crate::numbers::{bytes_of, number_of, width_of};
use crate::simple::put_simple;
use crate::texts::put_file_by;
use dwz_codes::{Class, class_of, names_file, names_list};
use dwz_expr::Operand;
use dwz_forms::Raw;
use dwz_graph::{Here, InputSections, offset_of};
use dwz_label::{put_num, put_offset, put_ref};
use dwz_lines::TableRows;
use dwz_model::{NoMemory, Pair};
use std::alloc::Global;

// Of a value whose class says what it is.
#[inline(always)]
#[tactic(auto, using(crate::proofs::PlainLemmas::simple_names))]
fn put_alone(
    out: &mut Vec<u8>,
    class: Class,
    sections: &InputSections,
    base: Option<u32>,
    pair: &Pair,
    raw: &Raw,
) -> Result<Named, NoMemory>
    ensures { (s : MeaningContext ℕ) (at end : ℕ) (v : Value ℕ) (operands : List OperandOfSpecs) → is_simple class ≡ true
        → s.around.sources ≡ sources_view sections.now → s.around.common ≡ None → base ≡ str_offsets_base s
        → as_class class s (stored at end pair.now raw.now) ≡ Ok v
        → IfOk result (λ named. TellsPlain s v operands out.old.items out.new.items named) }
{
    put_simple(out, class, sections, base, pair, raw)?;
    Ok(Named::Next(0))
}

// Of a number, which may be that of a file.
#[inline(always)]
fn put_constant(
    alloc: Global,
    out: &mut Vec<u8>,
    tables: &[TableRows],
    line: Option<usize>,
    pair: &Pair,
    raw: &Raw,
) -> Result<Named, NoMemory>
    ensures { (s : MeaningContext ℕ) (at end : ℕ) (v : Value ℕ) (operands : List OperandOfSpecs)
        → Classes.class_of pair.now.form ≡ OfConstant
        → KnowsLine s (stored at end pair.now raw.now) tables.now line → as_class OfConstant s (stored at end pair.now raw.now) ≡ Ok v
        → IfOk result (λ named. TellsPlain s v operands out.old.items out.new.items named) }
{
    if names_file(pair.name) {
        put_file_by(alloc, out, tables, line, raw)?;
        return Ok(Named::Next(0));
    }
    put_num(
        out,
        width_of(pair.name, pair.form, offset_of(raw)),
        number_of(raw),
    )?;
    Ok(Named::Next(0))
}

// Of an offset, which may be that of a location list.
#[inline(always)]
fn put_offset_of(
    alloc: Global,
    out: &mut Vec<u8>,
    sections: &InputSections,
    pair: &Pair,
    raw: &Raw,
    operands: &mut Vec<Operand>,
) -> Result<Named, NoMemory>
    ensures { (s : MeaningContext ℕ) (at end : ℕ) (v : Value ℕ) → s.around.sources ≡ sources_view sections.now
        → as_class OfOffset s (stored at end pair.now raw.now) ≡ Ok v
        → IfOk result (λ named. TellsPlain s v operands.new.items out.old.items out.new.items named) }
{
    if names_list(pair.name) {
        return put_list_at(alloc, out, sections.lists, offset_of(raw), operands);
    }
    put_offset(out, offset_of(raw))?;
    Ok(Named::Next(0))
}

// Of an entry, which one is told with the others that are named.
#[inline(always)]
#[tactic(auto, using(crate::proofs::PlainLemmas::unit_names, crate::proofs::PlainLemmas::info_names))]
fn put_entry_of(out: &mut Vec<u8>) -> Result<Named, NoMemory>
    ensures unit { (s : MeaningContext ℕ) (a : RawAttr) (v : Value ℕ) (operands : List OperandOfSpecs) → as_class OfUnitEntry s a ≡ Ok v
        → IfOk result (λ named. TellsPlain s v operands out.old.items out.new.items named) }
    ensures info { (s : MeaningContext ℕ) (a : RawAttr) (v : Value ℕ) (operands : List OperandOfSpecs) → as_class OfInfoEntry s a ≡ Ok v
        → IfOk result (λ named. TellsPlain s v operands out.old.items out.new.items named) }
{
    put_ref(out)?;
    Ok(Named::Next(1))
}

/// Appends what a value says besides the entries that it names, and answers which these are; where they are those of operands, these are
/// kept. `line` is the number of its unit's line table. The value ends at `end`.
#[inline(always)]
pub fn put_plain(
    alloc: Global,
    out: &mut Vec<u8>,
    sections: &InputSections,
    tables: &[TableRows],
    here: &Here,
    line: Option<usize>,
    end: u64,
    pair: &Pair,
    raw: &Raw,
    operands: &mut Vec<Operand>,
) -> Result<Named, NoMemory>
    ensures { (s : MeaningContext ℕ) (at : ℕ) (v : Value ℕ) → KnowsScope sections.now here.now s
        → KnowsLine s (stored at end pair.now raw.now) tables.now line → meaning s (stored at end pair.now raw.now) ≡ Ok v
        → IfOk result (λ named. TellsPlain s v operands.new.items out.old.items out.new.items named) }
{
    let class = class_of(pair.form);
    match class {
        Class::Constant => put_constant(alloc, out, tables, line, pair, raw),
        Class::Offset => put_offset_of(alloc, out, sections, pair, raw, operands),
        Class::UnitEntry => put_entry_of(out),
        Class::InfoEntry => put_entry_of(out),
        Class::Expression => put_expr(out, end, bytes_of(raw), operands),
        Class::ListIndex => put_list_by_slot(
            alloc,
            out,
            sections.lists,
            here.lists,
            offset_of(raw),
            operands,
        ),
        _ => put_alone(out, class, sections, here.offsets, pair, raw),
    }
}
