//! The front of an entry: its code and its values.

ghost use Rattle.std.specs.Prelude.{◌≡◌, ◌+◌, ◌<◌, ◌^◌, ℕ, List, All, length, slice_get, IfOk, IsOk, Ok, Some};
ghost use Rattle.std.specs.Option.{option_map};
ghost use Rattle.dwz_bytes.specs.Reading.{uleb_at};
ghost use Rattle.dwz_def_reading.specs.Abbrevs.{IsPlainPair};
ghost use Rattle.dwz_def_reading.specs.Entries.{attrs_at, code_or_fault};
ghost use Rattle.dwz_def_reading.specs.Parts.{Leaves};
ghost use Rattle.dwz_def_reading.specs.Values.{HasSpelling, value_at, written_rows};
ghost use Rattle.dwz_forms.specs.FormSets.{rows_of};
ghost use Rattle.dwz_forms.specs.RawValues.{raw_view};
ghost use Rattle.dwz_unit.specs.Contexts.{context_view, decls_of};
ghost use Rattle.dwz_unit.specs.FixedRuns.{IsRun};
ghost use Rattle.dwz_unit.specs.Fronts.{attrs_passed, front_passed, front_view, value_passed};
ghost use Rattle.dwz_unit.specs.Rows.{attr_view};

use crate::context::Context;
use crate::faults::{code_fault, fault_in_entry, info_fault};
use crate::fixed_run::FixedRun;
use crate::rows::RawAttr;
use dwz_bytes::Cursor;
use dwz_forms::{FormSet, Raw, read_value_among, read_value_sup};
use dwz_model::{Fault, Pair, Reason};

// No entry may be deeper, where a root has depth 1.
const DEEPEST: u32 = 256;

/// An entry without its children and its values.
#[derive(Clone, Copy)]
pub(crate) struct Front {
    /// Where it begins, in bytes from the first of `.debug_info`.
    pub at: usize,
    pub tag: u16,
    /// Whether a list of children follows.
    pub children: bool,
    /// The number of its declaration.
    pub decl: u32,
}

// Passes over a value of an entry, whose form is one of the set.
#[inline(always)]
fn pass_value(forms: FormSet, entry: usize, pair: &Pair, cursor: &mut Cursor) -> Result<(), Fault>
    ensures { Leaves (λ x. x) cursor.new result (value_passed (rows_of forms) entry pair.now cursor.old) }
{
    match read_value_among(cursor, pair, forms) {
        Ok(_) => Ok(()),
        Err(fault) => Err(fault_in_entry(entry, fault)),
    }
}

// Passes over the values of an entry, whose forms are of the set.
#[inline(always)]
fn pass_values(
    forms: FormSet,
    entry: usize,
    pairs: &[Pair],
    cursor: &mut Cursor,
) -> Result<(), Fault>
    ensures { Leaves (λ x. x) cursor.new result (attrs_passed (rows_of forms) entry pairs.now cursor.old) }
{
    for pair in pairs {
        pass_value(forms, entry, pair, cursor)?;
    }
    Ok(())
}

// Passes over the first values of an entry at once, if their bytes are there. Answers the names and forms of the others.
#[inline(always)]
fn pass_run<'t>(forms: FormSet, run: FixedRun, pairs: &'t [Pair], cursor: &mut Cursor) -> &'t [Pair]
    requires { IsRun pairs.now run }
    ensures { (entry : ℕ) → attrs_passed (rows_of forms) entry result.now cursor.new ≡ attrs_passed (rows_of forms) entry pairs.now cursor.old }
{
    let FormSet::Own = forms else {
        return pairs;
    };
    let Ok(_) = cursor.take(run.bytes as usize) else {
        return pairs;
    };
    &pairs[run.count as usize..]
}

// Passes over the values of an entry, whose forms are of the set, first those of a run.
#[inline(always)]
fn pass_all(
    forms: FormSet,
    entry: usize,
    run: FixedRun,
    pairs: &[Pair],
    cursor: &mut Cursor,
) -> Result<(), Fault>
    requires { IsRun pairs.now run }
    ensures { Leaves (λ x. x) cursor.new result (attrs_passed (rows_of forms) entry pairs.now cursor.old) }
{
    let others = pass_run(forms, run, pairs, cursor);
    pass_values(forms, entry, others, cursor)
}

// The run of the declaration with that number, or an empty one.
#[inline(always)]
fn run_at(context: &Context, number: u32) -> FixedRun
    ensures { (pairs : List Pair) → slice_get (decls_of context.now) number ≡ Some pairs → IsRun pairs result }
{
    match context.runs.get(number as usize) {
        Some(found) => *found,
        None => FixedRun { count: 0, bytes: 0 },
    }
}

// A code of a unit.
#[inline(always)]
fn read_code(context: &Context, cursor: &mut Cursor) -> Result<u64, Fault>
    ensures { Leaves (λ x. x) cursor.new result (code_or_fault (context_view context.now) (uleb_at cursor.old)) }
{
    match cursor.uleb() {
        Ok(code) => Ok(code),
        Err(error) => Err(code_fault(context, error)),
    }
}

/// Passes over an entry at that depth, behind `before` others, or over the end of a sibling list.
#[inline(always)]
#[tactic(auto, unfolding(dwz_def_reading::specs::Entries::front_at))]
pub(crate) fn pass_front(
    context: &Context,
    before: usize,
    depth: u32,
    cursor: &mut Cursor,
) -> Result<Option<Front>, Fault>
    ensures { Leaves (option_map (front_view (decls_of context.now))) cursor.new result (front_passed (context_view context.now) (record { before = before; depth = depth })
        cursor.old) }
{
    let at = cursor.at();
    let code = read_code(context, cursor)?;
    if code == 0 {
        if depth == 1 {
            return Err(info_fault(at, Reason::BadRoot));
        }
        return Ok(None);
    }
    let Some(found) = context.table.find(code) else {
        return Err(info_fault(at, Reason::NoSuchCode));
    };
    let decl = found.decl;
    if depth == 1 && decl.tag != context.root_tag {
        return Err(info_fault(at, Reason::BadRoot));
    }
    if depth > DEEPEST {
        return Err(info_fault(at, Reason::TooDeep));
    }
    if before >= context.mode.room as usize {
        return Err(info_fault(at, Reason::TooMany));
    }
    let run = run_at(context, found.number);
    let forms = context.mode.forms(context.root_tag, depth);
    pass_all(forms, at, run, found.pairs, cursor)?;
    Ok(Some(Front {
        at,
        tag: decl.tag,
        children: decl.children,
        decl: found.number,
    }))
}

/// A value that was read before. Of whatever file it is, its form is one of those that are written.
#[inline(always)]
pub fn known_value<'a>(cursor: &mut Cursor<'a>, pair: &Pair) -> Raw<'a>
    requires { IsOk (value_at written_rows pair.now cursor.old) }
    ensures value { value_at written_rows pair.now cursor.old ≡ Ok (raw_view result, cursor.new) }
    ensures writable { HasSpelling pair.now.form (raw_view result) }
{
    match read_value_sup(cursor, pair) {
        Ok(raw) => raw,
        Err(_) => unreachable!(),
    }
}

/// The value with that number of an entry whose values begin at the cursor.
#[inline(always)]
pub(crate) fn value_of<'a>(
    entry: usize,
    pairs: &[Pair],
    number: usize,
    cursor: &mut Cursor<'a>,
) -> RawAttr<'a>
    requires number { number < length pairs.now }
    requires read { IsOk (attrs_at written_rows entry pairs.now cursor.old) }
    requires short { cursor.old.at + length cursor.old.rest < 2 ^ 32 }
    requires plain { All IsPlainPair pairs.now }
    ensures attr { IfOk (attrs_at written_rows entry pairs.now cursor.old) (λ x. slice_get x.0 number ≡ Some (attr_view result)) }
    ensures pair { IsPlainPair result.pair }
    ensures writable { HasSpelling result.pair.form (raw_view result.raw) }
{
    let Ok(()) = pass_values(FormSet::Beside, entry, &pairs[..number], cursor) else {
        unreachable!()
    };
    let at = cursor.at() as u32;
    let pair = pairs[number];
    let raw = known_value(cursor, &pair);
    let end = cursor.at() as u32;
    RawAttr { at, end, pair, raw }
}
