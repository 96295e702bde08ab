//! What a value stores in the new file, by its class.

ghost use Rattle.std.specs.Prelude.{◌≡◌, ◌==◌, ℕ, true, if◌then◌else◌, IfOk, List, OnOk};
ghost use Rattle.dwz_def_reading.specs.Classes.{OfConstant, OfExpression, OfListIndex, OfOffset, OfTextBySlot};
ghost use Rattle.dwz_def_reading.specs.Abbrevs.{IsPlainPair};
ghost use Rattle.dwz_def_reading.specs.Classes;
ghost use Rattle.dwz_def_reading.specs.Documents.{Value};
ghost use Rattle.dwz_def_reading.specs.Values.{HasSpelling};
ghost use Rattle.dwz_forms.specs.RawValues.{raw_view};
ghost use Rattle.dwz_graph.specs.Resolved.{stored};
ghost use Rattle.dwz_layout.specs.Attributes.{plain_pair};
ghost use Rattle.dwz_expand_layout.specs.Entries.{CanStore};
ghost use Rattle.dwz_expand_layout.specs.declared.entries.Content.TheVariants.{Stored};
ghost use Rattle.dwz_expand_layout.specs.declared.entries.NewOperand.{NewOperand as OperandAfter};
ghost use Rattle.dwz_expand_passes.specs.Copied.{Answers, Asks, IsCopyAnswer, IsTextIn, KeepsConstant, SpeaksAttr, is_entry};
ghost use Rattle.dwz_expand_passes.specs.Known.{IsReady, LeadWithin, Setting};

use crate::files::SourceEntry;
use crate::lists::{check_list_at, check_list_by_slot};
use crate::named::{copy_or, put_operands};
use crate::numbers::{row_of_file, slot_number, text_at, text_by_slot};
use dwz_codes::{
    Class, DW_FORM_REF_ADDR, DW_FORM_REF4, DW_FORM_STRING, DW_FORM_STRP, DW_FORM_UDATA, class_of,
    names_file, names_list,
};
use dwz_expand_layout::{Content, NewAttr, NewExpression, NewOperand};
use dwz_expr::{Operand, read_into};
use dwz_forms::Raw;
use dwz_graph::offset_of;
use dwz_label_entries::bytes_of;
use dwz_layout::UnitRole;
use dwz_model::{DEBUG_INFO, Fault, Pair, ReadErr, Reason};

// An attribute as it was read.
#[inline(always)]
fn as_read<'a>(pair: &Pair, raw: &Raw<'a>) -> NewAttr<'a>
    ensures { result ≡ record { pair = pair.now; content = Stored raw.now } }
{
    NewAttr {
        pair: *pair,
        content: Content::Stored(*raw),
    }
}

// One of the same name, of another form.
#[inline(always)]
fn of_form<'a>(pair: &Pair, form: u64, content: Content<'a>) -> NewAttr<'a>
    ensures { result ≡ record { pair = plain_pair pair.now.name form; content = content.entry } }
{
    NewAttr {
        pair: Pair {
            name: pair.name,
            form,
            constant: 0,
        },
        content,
    }
}

// The form of an entry of a unit, in a unit.
#[inline(always)]
fn entry_form(unit: usize, here: usize) -> u64
    ensures { result ≡ (if unit == here then 0x13 else 0x10) }
{
    if unit == here {
        DW_FORM_REF4
    } else {
        DW_FORM_REF_ADDR
    }
}

// Of an entry: its copy.
fn copied_entry<'a>(
    x: &SourceEntry<'_, 'a>,
    at: u64,
    pair: &Pair,
    raw: &Raw<'a>,
    refs: &[u32],
) -> Result<NewAttr<'a>, ReadErr>
    requires ready { IsReady x.now }
    requires refs { LeadWithin x.now refs.now }
    requires spelled { HasSpelling pair.now.form (raw_view raw.now) }
    requires plain { IsPlainPair pair.now }
    ensures copies { (q : Setting) (index end : ℕ) (v : Value ℕ) (others : List ℕ) (operands : List OperandAfter)
        → is_entry (Classes.class_of pair.now.form) ≡ true → Asks x.now q index (stored at end pair.now raw.now) v refs.now others
        → Answers q index (stored at end pair.now raw.now) v operands operands result }
    ensures stores { IfOk result (λ new. CanStore new) }
{
    if refs.is_empty() {
        return Ok(as_read(pair, raw));
    }
    let copy = copy_or(x, refs[0], DEBUG_INFO, at)?;
    let form = entry_form(copy.unit, x.known.unit);
    Ok(of_form(pair, form, Content::OfCopy(copy.number)))
}

// Of a text at an offset of a section: itself, where the common file has it.
fn copied_text<'a>(
    x: &SourceEntry<'_, 'a>,
    section: &'a [u8],
    pair: &Pair,
    raw: &Raw<'a>,
) -> NewAttr<'a>
    requires constant { KeepsConstant pair.now (raw_view raw.now) }
    requires spelled { HasSpelling pair.now.form (raw_view raw.now) }
    requires plain { IsPlainPair pair.now }
    ensures copies { (q : Setting) (index at end : ℕ) (v : Value ℕ) (refs others : List ℕ) (operands : List OperandAfter)
        → IsTextIn (Classes.class_of pair.now.form) x.now section.now → Asks x.now q index (stored at end pair.now raw.now) v refs others
        → IsCopyAnswer q index (stored at end pair.now raw.now) v operands result }
    ensures stores { CanStore result }
{
    match x.role {
        UnitRole::CommonUnit => of_form(
            pair,
            DW_FORM_STRING,
            Content::Stored(Raw::Bytes(text_at(section, offset_of(raw)))),
        ),
        _ => as_read(pair, raw),
    }
}

// Of a text by its slot: the text at the offset in the slot, where a partial unit has it.
fn copied_slot<'a>(x: &SourceEntry<'_, 'a>, pair: &Pair, raw: &Raw<'a>) -> NewAttr<'a>
    requires constant { KeepsConstant pair.now (raw_view raw.now) }
    requires spelled { HasSpelling pair.now.form (raw_view raw.now) }
    requires plain { IsPlainPair pair.now }
    ensures copies { (q : Setting) (index at end : ℕ) (v : Value ℕ) (refs others : List ℕ) (operands : List OperandAfter)
        → Classes.class_of pair.now.form ≡ OfTextBySlot → Asks x.now q index (stored at end pair.now raw.now) v refs others
        → IsCopyAnswer q index (stored at end pair.now raw.now) v operands result }
    ensures stores { CanStore result }
{
    let index = offset_of(raw);
    let sections = x.file.sections;
    let here = x.here;
    match x.role {
        UnitRole::OldUnit => as_read(pair, raw),
        UnitRole::NewUnit => {
            let offset = slot_number(sections.offsets, here.offsets, index);
            of_form(
                pair,
                DW_FORM_STRP,
                Content::Stored(Raw::Number(offset as i128)),
            )
        }
        UnitRole::CommonUnit => of_form(
            pair,
            DW_FORM_STRING,
            Content::Stored(Raw::Bytes(text_by_slot(sections, here.offsets, index))),
        ),
    }
}

// Of the number of a file: that of its row in the line table of the new unit, where a partial unit has it.
fn copied_file<'a>(
    x: &SourceEntry<'_, 'a>,
    at: u64,
    pair: &Pair,
    raw: &Raw<'a>,
) -> Result<NewAttr<'a>, ReadErr>
    requires constant { KeepsConstant pair.now (raw_view raw.now) }
    requires spelled { HasSpelling pair.now.form (raw_view raw.now) }
    requires plain { IsPlainPair pair.now }
    ensures copies { (q : Setting) (index end : ℕ) (v : Value ℕ) (refs others : List ℕ) (operands : List OperandAfter)
        → Classes.class_of pair.now.form ≡ OfConstant → Classes.names_file pair.now.name ≡ true
        → Asks x.now q index (stored at end pair.now raw.now) v refs others
        → Answers q index (stored at end pair.now raw.now) v operands operands result }
    ensures stores { IfOk result (λ new. CanStore new) }
{
    match x.role {
        UnitRole::OldUnit => Ok(as_read(pair, raw)),
        _ => match row_of_file(x, raw)? {
            Some(row) => Ok(of_form(
                pair,
                DW_FORM_UDATA,
                Content::Stored(Raw::Number(row as i128)),
            )),
            None => Err(ReadErr::Refused(Fault {
                section: DEBUG_INFO,
                at,
                reason: Reason::NoRow,
            })),
        },
    }
}

// Of an expression, which ends at a place: the same, with the copies of the entries that it names.
fn copied_expression<'a>(
    x: &SourceEntry<'_, 'a>,
    operands: &mut Vec<NewOperand>,
    end: u64,
    pair: &Pair,
    raw: &Raw<'a>,
    refs: &[u32],
    read: &mut Vec<Operand>,
) -> Result<NewAttr<'a>, ReadErr>
    requires ready { IsReady x.now }
    requires refs { LeadWithin x.now refs.now }
    requires constant { KeepsConstant pair.now (raw_view raw.now) }
    requires spelled { HasSpelling pair.now.form (raw_view raw.now) }
    requires plain { IsPlainPair pair.now }
    ensures copies { (q : Setting) (index at : ℕ) (v : Value ℕ) (others : List ℕ) → Classes.class_of pair.now.form ≡ OfExpression
        → Asks x.now q index (stored at end pair.now raw.now) v refs.now others
        → Answers q index (stored at end pair.now raw.now) v operands.old.items operands.new.items result }
    ensures speaks { (q : Setting) (index at : ℕ) (v : Value ℕ) (others : List ℕ) → Classes.class_of pair.now.form ≡ OfExpression
        → Asks x.now q index (stored at end pair.now raw.now) v refs.now others
        → OnOk result (SpeaksAttr q (stored at end pair.now raw.now) operands.old.items operands.new.items) }
    ensures stores { Classes.class_of pair.now.form ≡ OfExpression → IfOk result (λ new. CanStore new) }
{
    let bytes = bytes_of(raw);
    let start = end.saturating_sub(bytes.len() as u64);
    let first = operands.len();
    read.clear();
    match read_into(read, bytes, start, DEBUG_INFO) {
        Err(ReadErr::NoMemory) => Err(ReadErr::NoMemory),
        Err(ReadErr::Refused(_fault)) => Ok(as_read(pair, raw)),
        Ok(_address) => {
            put_operands(x, operands, read, refs)?;
            let expression = NewExpression {
                start,
                bytes,
                first,
                end: operands.len(),
            };
            Ok(NewAttr {
                pair: *pair,
                content: Content::Expression(expression),
            })
        }
    }
}

// Of an offset, which may be that of a location list: the same, where each entry that the list names has a copy.
fn copied_offset<'a>(
    x: &SourceEntry<'_, 'a>,
    pair: &Pair,
    raw: &Raw<'a>,
    read: &mut Vec<Operand>,
) -> Result<NewAttr<'a>, ReadErr>
    requires ready { IsReady x.now }
    requires constant { KeepsConstant pair.now (raw_view raw.now) }
    requires spelled { HasSpelling pair.now.form (raw_view raw.now) }
    requires plain { IsPlainPair pair.now }
    ensures copies { (q : Setting) (index at end : ℕ) (v : Value ℕ) (refs others : List ℕ) (operands : List OperandAfter)
        → Classes.class_of pair.now.form ≡ OfOffset → Asks x.now q index (stored at end pair.now raw.now) v refs others
        → Answers q index (stored at end pair.now raw.now) v operands operands result }
    ensures stores { IfOk result (λ new. CanStore new) }
{
    if names_list(pair.name) {
        check_list_at(x, offset_of(raw), read)?;
    }
    Ok(as_read(pair, raw))
}

// Of the index of a location list.
fn copied_list<'a>(
    x: &SourceEntry<'_, 'a>,
    pair: &Pair,
    raw: &Raw<'a>,
    read: &mut Vec<Operand>,
) -> Result<NewAttr<'a>, ReadErr>
    requires ready { IsReady x.now }
    requires constant { KeepsConstant pair.now (raw_view raw.now) }
    requires spelled { HasSpelling pair.now.form (raw_view raw.now) }
    requires plain { IsPlainPair pair.now }
    ensures copies { (q : Setting) (index at end : ℕ) (v : Value ℕ) (refs others : List ℕ) (operands : List OperandAfter)
        → Classes.class_of pair.now.form ≡ OfListIndex → Asks x.now q index (stored at end pair.now raw.now) v refs others
        → Answers q index (stored at end pair.now raw.now) v operands operands result }
    ensures stores { IfOk result (λ new. CanStore new) }
{
    check_list_by_slot(x, offset_of(raw), read)?;
    Ok(as_read(pair, raw))
}

/// The copy of an attribute, whose value begins at a place and ends at another; the entries that it names are the first of the references.
/// Its operands are added. Refused where what it names has no copy, or a file no row. `read` is room.
pub(crate) fn copied_attr<'a>(
    x: &SourceEntry<'_, 'a>,
    operands: &mut Vec<NewOperand>,
    at: u64,
    end: u64,
    pair: &Pair,
    raw: &Raw<'a>,
    refs: &[u32],
    read: &mut Vec<Operand>,
) -> Result<NewAttr<'a>, ReadErr>
    requires ready { IsReady x.now }
    requires refs { LeadWithin x.now refs.now }
    requires constant { KeepsConstant pair.now (raw_view raw.now) }
    requires spelled { HasSpelling pair.now.form (raw_view raw.now) }
    requires plain { IsPlainPair pair.now }
    ensures copies { (q : Setting) (index : ℕ) (v : Value ℕ) (others : List ℕ) → Asks x.now q index
        (stored at end pair.now raw.now) v refs.now others
        → Answers q index (stored at end pair.now raw.now) v operands.old.items operands.new.items result }
    ensures speaks { (q : Setting) (index : ℕ) (v : Value ℕ) (others : List ℕ) → Asks x.now q index
        (stored at end pair.now raw.now) v refs.now others
        → OnOk result (SpeaksAttr q (stored at end pair.now raw.now) operands.old.items operands.new.items) }
    ensures stores { IfOk result (λ new. CanStore new) }
{
    let sections = x.file.sections;
    match class_of(pair.form) {
        Class::UnitEntry => copied_entry(x, at, pair, raw, refs),
        Class::InfoEntry => copied_entry(x, at, pair, raw, refs),
        Class::CommonEntry => copied_entry(x, at, pair, raw, refs),
        Class::CommonText => {
            let text = text_at(x.file.common_strs, offset_of(raw));
            Ok(of_form(pair, DW_FORM_STRING, Content::Stored(Raw::Bytes(text))))
        }
        Class::TextInStr => Ok(copied_text(x, sections.strs.bytes, pair, raw)),
        Class::TextInLineStr => Ok(copied_text(x, sections.line_strs.bytes, pair, raw)),
        Class::TextBySlot => Ok(copied_slot(x, pair, raw)),
        Class::Constant => {
            if names_file(pair.name) {
                copied_file(x, at, pair, raw)
            } else {
                Ok(as_read(pair, raw))
            }
        }
        Class::Expression => copied_expression(x, operands, end, pair, raw, refs, read),
        Class::Offset => copied_offset(x, pair, raw, read),
        Class::ListIndex => copied_list(x, pair, raw, read),
        _ => Ok(as_read(pair, raw)),
    }
}
