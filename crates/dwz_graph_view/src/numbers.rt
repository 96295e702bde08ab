//! Numbers that values store.

ghost use Rattle.std.specs.Prelude.{◌≡◌, ◌<◌, ◌^◌, Some};

/// The number, where 64 bits hold it.
pub(crate) fn narrow(number: u128) -> Option<u64>
    ensures { number < 2 ^ 64 → result ≡ Some number }
{
    if number > u64::MAX as u128 {
        return None;
    }
    Some(number as u64)
}
