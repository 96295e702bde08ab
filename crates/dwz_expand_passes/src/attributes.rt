//! The attributes of an entry, one after the other.

ghost use Rattle.std.specs.Prelude.{◌≡◌, ℕ, ◌<◌, ◌∷◌, [], List, IfOk, OnOk, drop};
ghost use Rattle.dwz_model.specs.Lists.{Each};
ghost use Rattle.dwz_def_reading.specs.Abbrevs.{IsPlainPair};
ghost use Rattle.dwz_def_reading.specs.Documents.{Attr, Node};
ghost use Rattle.dwz_def_reading.specs.Entries.{RawAttr};
ghost use Rattle.dwz_def_reading.specs.Units.{entries_in};
ghost use Rattle.dwz_def_reading.specs.Values.{HasSpelling};
ghost use Rattle.dwz_forms.specs.RawValues.{raw_view};
ghost use Rattle.dwz_graph.specs.Resolved.{stored};
ghost use Rattle.dwz_unit.specs.Rows.{EntryRow};
ghost use Rattle.dwz_expand_layout.specs.Entries.{CanStore};
ghost use Rattle.dwz_expand_passes.specs.Attributes.{AnswersAll, IsEntryOf, PutsAttr, Remain, RefsReady, SpeaksAttrs, refs_at};
ghost use Rattle.dwz_expand_passes.specs.Copied.{KeepsConstant, names_many};
ghost use Rattle.dwz_expand_passes.specs.Known.{Fits, IsReady, LeadWithin, Setting, raw_of};

use crate::contents::copied_attr;
use crate::files::SourceEntry;
use dwz_codes::DW_AT_SIBLING;
use dwz_expand_layout::{Content, NewAttr, NewOperand};
use dwz_expr::Operand;
use dwz_forms::Raw;
use dwz_label_entries::part;
use dwz_model::{Pair, ReadErr};
use dwz_unit::{Values, known_value};

// How many entries a content names.
fn count_of(content: &Content) -> usize
    ensures { result ≡ names_many content.now }
{
    match content {
        Content::Stored(_) => 0,
        Content::OfCopy(_) => 1,
        Content::Expression(expression) => expression.end.saturating_sub(expression.first),
    }
}

// What stands behind so many references.
fn behind(refs: &[u32], count: usize) -> &[u32]
    ensures { result.now ≡ drop count refs.now }
{
    &refs[count.min(refs.len())..]
}

// The references of an entry.
fn refs_of<'s>(x: &SourceEntry<'s, '_>, i: u32) -> &'s [u32]
    requires ready { RefsReady x.now }
    requires there { i < entries_in (raw_of x.now) }
    ensures within { LeadWithin x.now result.now }
    ensures refs { result.now ≡ refs_at x.now i }
{
    let start = x.file.starts[i as usize] as usize;
    let end = x.file.starts[i as usize + 1] as usize;
    part(x.file.refs, start, end.saturating_sub(start))
}

// Adds the copy of an attribute, and answers what its references are followed by. `DW_AT_sibling` has none.
fn put_attr<'r, 'a>(
    x: &SourceEntry<'_, 'a>,
    attrs: &mut Vec<NewAttr<'a>>,
    operands: &mut Vec<NewOperand>,
    at: u64,
    end: u64,
    pair: &Pair,
    raw: &Raw<'a>,
    refs: &'r [u32],
    read: &mut Vec<Operand>,
) -> Result<&'r [u32], ReadErr>
    requires ready { IsReady x.now }
    requires refs { LeadWithin x.now refs.now }
    requires constant { KeepsConstant pair.now (raw_view raw.now) }
    requires spelled { HasSpelling pair.now.form (raw_view raw.now) }
    requires plain { IsPlainPair pair.now }
    ensures within { IfOk result (λ rest. LeadWithin x.now rest.now) }
    ensures stores { Each CanStore attrs.old.items → OnOk result (Each CanStore attrs.new.items) }
    ensures puts { (q : Setting) (values : List RawAttr) (all : List (Attr ℕ)) → Fits x.now q
        → Remain x.now q (stored at end pair.now raw.now ∷ values) refs.now all attrs.old.items operands.old.items
        → PutsAttr x.now q values all attrs.new.items operands.new.items result }
    ensures speaks { (q : Setting) (values : List RawAttr) (all : List (Attr ℕ)) → Fits x.now q
        → Remain x.now q (stored at end pair.now raw.now ∷ values) refs.now all attrs.old.items operands.old.items
        → OnOk result (SpeaksAttrs q (stored at end pair.now raw.now ∷ []) operands.old.items operands.new.items) }
{
    if pair.name == DW_AT_SIBLING {
        return Ok(refs);
    }
    let new = copied_attr(x, operands, at, end, pair, raw, refs, read)?;
    attrs.push(new)?;
    Ok(behind(refs, count_of(&new.content)))
}

/// The copies of the attributes of the entry with a number, and the operands of its expressions, take the place of what stands in the rows.
/// Refused at the first value that can't be copied. `read` is room.
pub(crate) fn put_values<'a>(
    x: &SourceEntry<'_, 'a>,
    i: u32,
    attrs: &mut Vec<NewAttr<'a>>,
    operands: &mut Vec<NewOperand>,
    read: &mut Vec<Operand>,
) -> Result<(), ReadErr>
    requires ready { IsReady x.now }
    requires refs { RefsReady x.now }
    requires there { i < entries_in (raw_of x.now) }
    ensures copies { (q : Setting) (row : EntryRow) (d : Node ℕ) → Fits x.now q → IsEntryOf x.now q i row d
        → AnswersAll q d.attrs attrs.new.items operands.new.items result }
    ensures speaks { (q : Setting) (row : EntryRow) (d : Node ℕ) → Fits x.now q → IsEntryOf x.now q i row d
        → OnOk result (SpeaksAttrs q row.entry.attrs [] operands.new.items) }
    ensures stores { OnOk result (Each CanStore attrs.new.items) }
{
    attrs.clear();
    operands.clear();
    let mut rest = refs_of(x, i);
    let Values { pairs, mut cursor } = x.file.units.values(i);
    for pair in pairs {
        let at = cursor.at() as u64;
        let raw = known_value(&mut cursor, pair);
        let end = cursor.at() as u64;
        rest = put_attr(x, attrs, operands, at, end, pair, &raw, rest, read)?;
    }
    Ok(())
}
