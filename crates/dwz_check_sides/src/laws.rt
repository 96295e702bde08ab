//! Laws on the numbers of name lists.

ghost use Rattle.dwz_check_sides.specs.SideLaws.{KeptNumberLaw, ListNumberLaw};

/// Equal name lists alone have equal numbers; and lists keep their numbers while more get theirs.
pub fn list_number_laws()
    ensures one { ListNumberLaw }
    ensures kept { KeptNumberLaw }
{}
