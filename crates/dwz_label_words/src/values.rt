//! Values.

ghost use Rattle.std.specs.Prelude.{◌≡◌, ℕ, List, [], ◌∷◌, ◌<◌, None, Ok, IfOk, OnOk, drop, length, map};
ghost use Rattle.dwz_def_reading.specs.Classes;
ghost use Rattle.dwz_def_reading.specs.Classes.{OfConstant};
ghost use Rattle.dwz_def_reading.specs.Documents.{Value};
ghost use Rattle.dwz_def_reading.specs.Lists.{Each};
ghost use Rattle.dwz_def_reading.specs.Meanings.{MeaningContext};
ghost use Rattle.dwz_def_reading.specs.Meant.{as_class, meaning};
ghost use Rattle.dwz_def_reading.specs.Units.{RawUnit};
ghost use Rattle.dwz_def_tops.specs.Spots.{EntryName};
ghost use Rattle.dwz_graph.specs.Named.{value_refs};
ghost use Rattle.dwz_graph.specs.Resolved.{stored};
ghost use Rattle.dwz_graph.specs.Rows.{AreTargets};
ghost use Rattle.dwz_label_entries.specs.Plain.{KnowsLine, KnowsScope};
ghost use Rattle.dwz_label_entries.specs.Sources.{IsReady, KnowsUnit, raw_of, scope_at};
ghost use Rattle.dwz_label_entries.specs.Targets.{KnowsNames};
ghost use Rattle.dwz_label_marks.specs.Marks.{direct, plain_mark, target_marks, usual, Plainly};
ghost use Rattle.dwz_label_marks.specs.Told.{Adds};
ghost use Rattle.dwz_label_words.specs.Known.{StaysNamed};
ghost use Rattle.dwz_label_words.specs.Told.{AreNamesOf, TellsValue};

use crate::FileNames;
use crate::files::put_file_mark;
use crate::numbers::{put_flag_mark, put_num_mark};
use crate::room::Room;
use crate::targets::put_target;
use crate::texts::put_text_mark;
use dwz_codes::{Class, class_of, names_file};
use dwz_forms::Raw;
use dwz_graph::{Here, offset_of};
use dwz_label_entries::{Source, is_set, number_of, put_plain, width_of};
use dwz_label_marks::{put_named, put_plainly};
use dwz_model::{NoMemory, Pair};
use std::alloc::Global;

// Stands for an entry, whose path follows.
const ENTRY: u64 = 3;

// Appends the mark of a number, which may be that of a file.
#[inline(always)]
fn put_constant(
    alloc: Global,
    names: &mut FileNames,
    out: &mut Vec<u8>,
    made: &mut Vec<u8>,
    line: Option<usize>,
    pair: &Pair,
    raw: &Raw,
) -> Result<(), NoMemory>
    ensures stays { OnOk result (StaysNamed names.old names.new) }
    ensures told { (s : MeaningContext ℕ) (at end : ℕ) (v : Value ℕ) → Classes.class_of pair.now.form ≡ OfConstant
        → KnowsLine s (stored at end pair.now raw.now) names.old.tables line → as_class OfConstant s (stored at end pair.now raw.now) ≡ Ok v
        → OnOk result (Adds names.new.names (plain_mark v.plain ∷ []) out.old.items out.new.items) }
{
    if names_file(pair.name) {
        return put_file_mark(alloc, names, out, line, raw);
    }
    let width = width_of(pair.name, pair.form, offset_of(raw));
    put_num_mark(names, out, made, width, number_of(raw))
}

// Appends the mark of the entry that is named next. The answer is where the references go on.
#[inline(always)]
fn put_entry(
    source: &Source,
    out: &mut Vec<u8>,
    next: usize,
    path: &mut Vec<u32>,
) -> Result<usize, NoMemory>
    requires { Each (λ i. i < length source.now.index.now.steps) source.now.refs.now }
    ensures { (told : List (List ℕ)) (raw : List RawUnit) (name : ℕ → EntryName) (p : ℕ) → KnowsNames raw name source.now.index.now
        → AreTargets raw (drop next source.now.refs.now) (p ∷ [])
        → IfOk result (λ behind. Adds told (Plainly 3 ∷ target_marks (name p)) out.old.items out.new.items
        × (drop behind source.now.refs.now ≡ drop 1 (drop next source.now.refs.now))) }
{
    if next >= source.refs.len() {
        return Ok(next);
    }
    put_plainly(out, ENTRY)?;
    put_target(out, source.index, source.refs[next], path)?;
    Ok(next + 1)
}

// Appends the mark of a value that has a name, and names no entry.
#[inline(never)]
fn put_other(
    source: &Source,
    names: &mut FileNames,
    out: &mut Vec<u8>,
    here: &Here,
    line: Option<usize>,
    end: u64,
    pair: &Pair,
    raw: &Raw,
    room: &mut Room,
) -> Result<(), NoMemory>
    ensures stays { OnOk result (StaysNamed names.old names.new) }
    ensures told { (s : MeaningContext ℕ) (at : ℕ) (v : Value ℕ) → KnowsScope source.now.sections.now here.now s
        → KnowsLine s (stored at end pair.now raw.now) source.now.tables.now line → meaning s (stored at end pair.now raw.now) ≡ Ok v
        → direct v.plain ≡ None → OnOk result (Adds names.new.names (plain_mark v.plain ∷ []) out.old.items out.new.items) }
{
    room.made.clear();
    let _unused = put_plain(
        source.alloc,
        &mut room.made,
        source.sections,
        source.tables,
        here,
        line,
        end,
        pair,
        raw,
        &mut room.operands,
    )?;
    let name = names.other(room.made.as_slice())?;
    put_named(out, name)
}

/// Appends the marks of a value that names no entry but as a reference. Its references begin at `next`; the answer is where they end.
#[inline(always)]
pub fn put_value(
    source: &Source,
    names: &mut FileNames,
    out: &mut Vec<u8>,
    here: &Here,
    line: Option<usize>,
    end: u64,
    pair: &Pair,
    raw: &Raw,
    next: usize,
    room: &mut Room,
) -> Result<usize, NoMemory>
    requires ready { IsReady source.now here.now }
    requires names { AreNamesOf source.now names.old }
    ensures stays { OnOk result (StaysNamed names.old names.new) }
    ensures told { (u : RawUnit) (name : ℕ → EntryName) (at : ℕ) (v : Value ℕ) → KnowsUnit source.now here.now line u name
        → KnowsLine (scope_at source.now u) (stored at end pair.now raw.now) source.now.tables.now line
        → meaning (scope_at source.now u) (stored at end pair.now raw.now) ≡ Ok v → length v.refs ≡ usual v.plain
        → AreTargets (raw_of source.now) (drop next source.now.refs.now) (value_refs v)
        → IfOk result (λ behind. TellsValue name v names.new.names (drop next source.now.refs.now) (drop behind source.now.refs.now)
        out.old.items out.new.items) }
{
    match class_of(pair.form) {
        Class::Constant => {
            put_constant(source.alloc, names, out, &mut room.made, line, pair, raw)?;
            Ok(next)
        }
        Class::Flag => {
            put_flag_mark(out, is_set(pair.form, offset_of(raw)))?;
            Ok(next)
        }
        Class::TextInStr => {
            let sections = source.sections;
            put_text_mark(names, out, sections.strs.bytes, offset_of(raw))?;
            Ok(next)
        }
        Class::UnitEntry => put_entry(source, out, next, &mut room.path),
        Class::InfoEntry => put_entry(source, out, next, &mut room.path),
        _ => {
            put_other(source, names, out, here, line, end, pair, raw, room)?;
            Ok(next)
        }
    }
}
