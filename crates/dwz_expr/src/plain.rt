//! Operators at the front of an expression that name no entry: of most expressions they are all. Expressions may be in them that have none
//! in them in turn.

ghost use Rattle.std.specs.Prelude.{◌≡◌, ◌+◌, ◌<◌, ◌≤◌, ◌||◌, true, false, IfSome, length, slice_index_or, slice_range};
ghost use Rattle.dwz_codes.specs.Operators.{operator_rows};
ghost use Rattle.dwz_codes.specs.Rows.{shape_of};
ghost use Rattle.dwz_codes.specs.declared.shape.Shape.TheVariants.{NestedExpr};
ghost use Rattle.dwz_expr.specs.Few.{AreFew, ArePlain, IsPlain, NamesNone};

use crate::few::few_end;
use dwz_codes::{Shape, operator_shape};

/// The place behind operators, and whether there is an address among them.
#[derive(Clone, Copy)]
pub(crate) struct Plain {
    pub end: usize,
    pub address: bool,
}

// The number at a place, if it has few bytes.
#[inline(always)]
fn number_at(bytes: &[u8], at: usize) -> Option<Plain>
    requires { at ≤ length bytes.now }
    ensures number { IfSome result (λ p. AreFew 3 bytes.now at p.end) }
    ensures address { IfSome result (λ p. p.address ≡ false) }
{
    match few_end(bytes, at) {
        None => None,
        Some(end) => Some(Plain {
            end,
            address: false,
        }),
    }
}

// The address at a place, if it is whole.
#[inline(always)]
fn address_at(bytes: &[u8], at: usize) -> Option<Plain>
    requires { at ≤ length bytes.now }
    ensures end { IfSome result (λ p. p.end ≡ at + 8) }
    ensures within { IfSome result (λ p. p.end ≤ length bytes.now) }
    ensures address { IfSome result (λ p. p.address ≡ true) }
{
    if bytes.len() - at < 8 {
        return None;
    }
    Some(Plain {
        end: at + 8,
        address: true,
    })
}

// So many bytes at a place, if they are whole.
#[inline(always)]
fn run_at(bytes: &[u8], at: usize, count: usize) -> Option<Plain>
    requires { at ≤ length bytes.now }
    ensures end { IfSome result (λ p. p.end ≡ at + count) }
    ensures within { IfSome result (λ p. p.end ≤ length bytes.now) }
    ensures address { IfSome result (λ p. p.address ≡ false) }
{
    if bytes.len() - at < count {
        return None;
    }
    Some(Plain {
        end: at + count,
        address: false,
    })
}

// The operator with a field that is at a place, if it is a plain one without an expression in it.
#[inline(always)]
fn field_at(shape: Shape, bytes: &[u8], at: usize) -> Option<Plain>
    requires there { at < length bytes.now }
    requires shape { shape ≡ shape_of operator_rows (slice_index_or bytes.now at 0) }
    ensures { IfSome result (λ p. IsPlain 0 bytes.now at p) }
{
    match shape {
        Shape::Sleb => number_at(bytes, at + 1),
        Shape::Uleb => number_at(bytes, at + 1),
        Shape::Address => address_at(bytes, at + 1),
        Shape::Fixed1 => run_at(bytes, at + 1, 1),
        Shape::Fixed2 => run_at(bytes, at + 1, 2),
        Shape::Fixed4 => run_at(bytes, at + 1, 4),
        Shape::Fixed8 => run_at(bytes, at + 1, 8),
        _ => None,
    }
}

// The operator of that shape at a place, if it is a plain one without an expression in it.
#[inline(always)]
fn shaped_at(shape: Shape, bytes: &[u8], at: usize) -> Option<Plain>
    requires there { at < length bytes.now }
    requires shape { shape ≡ shape_of operator_rows (slice_index_or bytes.now at 0) }
    ensures { IfSome result (λ p. IsPlain 0 bytes.now at p) }
{
    match shape {
        Shape::Nothing => Some(Plain {
            end: at + 1,
            address: false,
        }),
        _ => field_at(shape, bytes, at),
    }
}

// Those up to another place, where there was an address before or not.
#[inline(always)]
fn with_before(address: bool, one: Plain) -> Plain
    ensures end { result.end ≡ one.end }
    ensures address { result.address ≡ (address || one.address) }
{
    Plain {
        end: one.end,
        address: address || one.address,
    }
}

// The plain operators at the front of an expression that have no expression in them.
fn flat_front(bytes: &[u8]) -> Plain
    ensures { ArePlain 0 bytes.now 0 result }
{
    let mut found = Plain {
        end: 0,
        address: false,
    };
    while found.end < bytes.len() {
        let shape = operator_shape(bytes[found.end]);
        match shaped_at(shape, bytes, found.end) {
            None => return found,
            Some(one) => found = with_before(found.address, one),
        }
    }
    found
}

// So many bytes at a place, if they are an expression of plain operators without one in them.
#[inline(always)]
fn inside_at(bytes: &[u8], at: usize, count: usize) -> Option<Plain>
    requires { at ≤ length bytes.now }
    ensures end { IfSome result (λ p. p.end ≡ at + count) }
    ensures within { IfSome result (λ p. p.end ≤ length bytes.now) }
    ensures plain { IfSome result (λ p. ArePlain 0 (slice_range bytes.now at (at + count)) 0 (record { end = count; address = p.address })) }
{
    if bytes.len() - at < count {
        return None;
    }
    let found = flat_front(&bytes[at..at + count]);
    if found.end != count {
        return None;
    }
    Some(Plain {
        end: at + count,
        address: found.address,
    })
}

// The operator at a place that has an expression in it, if it is a plain one. It is behind its length, of one byte.
#[inline(always)]
fn nested_at(bytes: &[u8], at: usize) -> Option<Plain>
    requires there { at < length bytes.now }
    requires shape { NestedExpr ≡ shape_of operator_rows (slice_index_or bytes.now at 0) }
    ensures { IfSome result (λ p. IsPlain 1 bytes.now at p) }
{
    let from = at + 1;
    if from == bytes.len() {
        return None;
    }
    let count = bytes[from];
    if count >= 128 {
        return None;
    }
    inside_at(bytes, from + 1, count as usize)
}

// The operator at a place, if it is a plain one.
#[inline(always)]
fn operator_at(bytes: &[u8], at: usize) -> Option<Plain>
    requires { at < length bytes.now }
    ensures { IfSome result (λ p. IsPlain 1 bytes.now at p) }
{
    let shape = operator_shape(bytes[at]);
    match shape {
        Shape::NestedExpr => nested_at(bytes, at),
        _ => shaped_at(shape, bytes, at),
    }
}

/// The plain operators at the front of an expression, up to the first other one.
#[inline(always)]
pub(crate) fn plain_front(bytes: &[u8]) -> Plain
    ensures { ArePlain 1 bytes.now 0 result }
{
    let mut found = Plain {
        end: 0,
        address: false,
    };
    while found.end < bytes.len() {
        match operator_at(bytes, found.end) {
            None => return found,
            Some(one) => found = with_before(found.address, one),
        }
    }
    found
}

/// Whether an expression has plain operators alone: then it is read, and names no entry.
#[inline(always)]
pub fn is_plain(bytes: &[u8]) -> bool
    ensures { result ≡ true → NamesNone bytes.now }
{
    plain_front(bytes).end == bytes.len()
}
