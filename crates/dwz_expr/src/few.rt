//! LEB128 numbers that have few bytes, and where they end.

ghost use Rattle.std.specs.Prelude.{◌≤◌, IfSome, length};
ghost use Rattle.dwz_expr.specs.Few.{AreFew};

/// Where a LEB128 number ends that begins at a place, if it has three bytes at most. It is one of either kind.
#[inline(always)]
pub fn few_end(bytes: &[u8], at: usize) -> Option<usize>
    requires { at ≤ length bytes.now }
    ensures { IfSome result (λ end. AreFew 3 bytes.now at end) }
{
    let count = bytes.len();
    if at == count {
        return None;
    }
    if bytes[at] < 128 {
        return Some(at + 1);
    }
    if at + 1 == count {
        return None;
    }
    if bytes[at + 1] < 128 {
        return Some(at + 2);
    }
    if at + 2 == count {
        return None;
    }
    if bytes[at + 2] < 128 {
        return Some(at + 3);
    }
    None
}
