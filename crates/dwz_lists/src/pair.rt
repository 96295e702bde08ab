//! Entries that have two numbers before their expression, each of few bytes: so it is with most.

ghost use Rattle.std.specs.Prelude.{◌≡◌, ◌≤◌, IfSome, length};
ghost use Rattle.dwz_lists.specs.Pairs.{IsCounted, IsPair};

use dwz_codes::DW_LLE_OFFSET_PAIR;
use dwz_expr::few_end;

/// The places of the first byte of an expression, and behind its last, where the entry ends too.
#[derive(Clone, Copy)]
pub(crate) struct Span {
    pub from: usize,
    pub end: usize,
}

// The bytes behind a length of one byte at a place.
#[inline(always)]
fn counted_at(section: &[u8], at: usize) -> Option<Span>
    requires { at ≤ length section.now }
    ensures { IfSome result (λ s. IsCounted section.now at s) }
{
    if at == section.len() {
        return None;
    }
    let count = section[at] as usize;
    let from = at + 1;
    if count >= 128 {
        return None;
    }
    if section.len() - from < count {
        return None;
    }
    Some(Span {
        from,
        end: from + count,
    })
}

/// The expression of the entry at a place, if that is a pair of offsets, each of few bytes.
#[inline(always)]
pub(crate) fn pair_at(section: &[u8], at: usize) -> Option<Span>
    requires { at ≤ length section.now }
    ensures { IfSome result (λ s. IsPair section.now at s) }
{
    if at == section.len() {
        return None;
    }
    if section[at] != DW_LLE_OFFSET_PAIR {
        return None;
    }
    let Some(second) = few_end(section, at + 1) else {
        return None;
    };
    let Some(third) = few_end(section, second) else {
        return None;
    };
    counted_at(section, third)
}
