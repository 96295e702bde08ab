//! What stands behind the kind of an entry.

ghost use Rattle.std.specs.Prelude.{◌≡◌, ◌+◌, ◌<◌, ◌^◌, length};
ghost use Rattle.dwz_bytes.specs.Reading.{fixed_at, take_at, uleb_at};
ghost use Rattle.dwz_def_reading.specs.Exprs.{fields_of, or_fault};
ghost use Rattle.dwz_def_reading.specs.Faults.{AnswersAt};
ghost use Rattle.dwz_def_reading.specs.LocLists.{bad_list};
ghost use Rattle.dwz_codes.specs.ListKinds.{list_kind_rows};
ghost use Rattle.dwz_codes.specs.Rows.{shape_of};
ghost use Rattle.dwz_lists.specs.Gathering.{content_at, content_of, kind_front};

use dwz_bytes::Cursor;
use dwz_codes::{Shape, list_kind_shape};
use dwz_model::{DEBUG_LOCLISTS, Fault, ReadErr, Reason};

// A bad list at a place.
#[inline(always)]
pub(crate) fn bad_at(at: u64) -> Fault
    ensures { result ≡ bad_list at }
{
    Fault {
        section: DEBUG_LOCLISTS,
        at,
        reason: Reason::BadList,
    }
}

// An unsigned number.
#[inline(always)]
fn uleb(cursor: &mut Cursor, bad: Fault) -> Result<u64, ReadErr>
    ensures { AnswersAt (λ x. x) cursor.new result (or_fault bad (uleb_at cursor.old)) }
{
    match cursor.uleb() {
        Ok(number) => Ok(number),
        Err(_) => Err(ReadErr::Refused(bad)),
    }
}

// A byte.
#[inline(always)]
pub(crate) fn byte(cursor: &mut Cursor, bad: Fault) -> Result<u8, ReadErr>
    ensures { AnswersAt (λ x. x) cursor.new result (or_fault bad (fixed_at 1 cursor.old)) }
{
    match cursor.u8() {
        Ok(number) => Ok(number),
        Err(_) => Err(ReadErr::Refused(bad)),
    }
}

// An address.
#[inline(always)]
fn address(cursor: &mut Cursor, bad: Fault) -> Result<u64, ReadErr>
    ensures { AnswersAt (λ x. x) cursor.new result (or_fault bad (fixed_at 8 cursor.old)) }
{
    match cursor.u64() {
        Ok(number) => Ok(number),
        Err(_) => Err(ReadErr::Refused(bad)),
    }
}

// So many bytes.
#[inline(always)]
fn run<'a>(cursor: &mut Cursor<'a>, bad: Fault, count: usize) -> Result<&'a [u8], ReadErr>
    ensures { AnswersAt (λ x. x.now) cursor.new result (or_fault bad (take_at count cursor.old)) }
{
    match cursor.take(count) {
        Ok(bytes) => Ok(bytes),
        Err(_) => Err(ReadErr::Refused(bad)),
    }
}

// The bytes of an expression, and the place of the first of them.
#[derive(Clone, Copy)]
pub(crate) struct Content<'a> {
    pub(crate) at: u64,
    pub(crate) bytes: &'a [u8],
}

// The bytes of an expression, behind their number.
fn one_content<'a>(cursor: &mut Cursor<'a>, bad: Fault) -> Result<Option<Content<'a>>, ReadErr>
    ensures { AnswersAt content_of cursor.new result (content_at bad cursor.old) }
{
    let count = uleb(cursor, bad)?;
    let at = cursor.at() as u64;
    let bytes = run(cursor, bad, count as usize)?;
    Ok(Some(Content { at, bytes }))
}

// What is laid out in a shape behind the kind of an entry at that place, whose expression comes last, if it has one.
#[inline(always)]
#[tactic(auto, unfolding(crate::specs::Gathering::front_at))]
fn shaped<'a>(
    shape: Shape,
    at: u64,
    cursor: &mut Cursor<'a>,
) -> Result<Option<Content<'a>>, ReadErr>
    ensures { AnswersAt content_of cursor.new result (kind_front at (fields_of shape) cursor.old) }
{
    let bad = bad_at(at);
    match shape {
        Shape::Nothing => Ok(None),
        Shape::Uleb => {
            uleb(cursor, bad)?;
            Ok(None)
        }
        Shape::UlebUleb => {
            uleb(cursor, bad)?;
            uleb(cursor, bad)?;
            Ok(None)
        }
        Shape::Address => {
            address(cursor, bad)?;
            Ok(None)
        }
        Shape::NestedExpr => one_content(cursor, bad),
        Shape::UlebUlebExpr => {
            uleb(cursor, bad)?;
            uleb(cursor, bad)?;
            one_content(cursor, bad)
        }
        Shape::AddressAddressExpr => {
            address(cursor, bad)?;
            address(cursor, bad)?;
            one_content(cursor, bad)
        }
        Shape::AddressUlebExpr => {
            address(cursor, bad)?;
            uleb(cursor, bad)?;
            one_content(cursor, bad)
        }
        _ => Err(ReadErr::Refused(bad)),
    }
}

// What stands behind the kind of an entry at that place.
pub(crate) fn front<'a>(
    kind: u8,
    at: u64,
    cursor: &mut Cursor<'a>,
) -> Result<Option<Content<'a>>, ReadErr>
    ensures { AnswersAt content_of cursor.new result (kind_front at (fields_of (shape_of list_kind_rows kind)) cursor.old) }
{
    shaped(list_kind_shape(kind), at, cursor)
}
