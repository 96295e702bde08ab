//! Marks on numbers.

ghost use Rattle.std.specs.Prelude.{◌≡◌, ◌↔◌, ℕ, ◌<◌, IsTrue, length, slice_index};
ghost use Rattle.dwz_model.specs.Lists.{In};
ghost use Rattle.dwz_groups.specs.Spreading.{IsMarked};
ghost use Rattle.dwz_takes.specs.Steps.{AreClear, AreMarked};

/// Marks all numbers of a list, where none is marked.
pub(crate) fn mark_all(flags: &mut [bool], list: &[u32])
    requires inside { (n : ℕ) → In n list.now → n < length flags.old }
    requires clear { AreClear flags.old }
    ensures { AreMarked list.now flags.new }
{
    for number in list {
        flags[*number as usize] = true;
    }
}

/// Takes the marks off the numbers of a list, where only these are marked.
pub(crate) fn clear_all(flags: &mut [bool], list: &[u32])
    requires inside { (n : ℕ) → In n list.now → n < length flags.old }
    requires only { (n : ℕ) → IsMarked flags.old n → In n list.now }
    ensures { AreClear flags.new }
{
    for number in list {
        flags[*number as usize] = false;
    }
}

/// Whether all numbers of a list are marked.
pub(crate) fn has_all(flags: &[bool], list: &[u32]) -> bool
    requires { (n : ℕ) → In n list.now → n < length flags.now }
    ensures { IsTrue result ↔ ((n : ℕ) → In n list.now → IsMarked flags.now n) }
{
    for number in list {
        if !flags[*number as usize] {
            return false;
        }
    }
    true
}

/// Whether the classes of all these tops are marked.
pub(crate) fn has_classes(flags: &[bool], classes: &[u32], tops: &[u32]) -> bool
    requires tops { (t : ℕ) → In t tops.now → t < length classes.now }
    requires classes { (t : ℕ) → In t tops.now → slice_index classes.now t < length flags.now }
    ensures { IsTrue result ↔ ((t : ℕ) → In t tops.now → IsMarked flags.now (slice_index classes.now t)) }
{
    for top in tops {
        if !flags[classes[*top as usize] as usize] {
            return false;
        }
    }
    true
}
