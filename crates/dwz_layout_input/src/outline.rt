//! What holds of the plan of files.

ghost use Rattle.dwz_layout_input.specs.Laws.{AlikeLaw, AnyHomeLaw, ChoiceLaw, HomesLaw, MarksLaw, NoUnitsLaw, OutlineLaw};

/// The outline of files says which tops may move, and into which tops the references of each of these go.
pub fn outline_laws()
    ensures { OutlineLaw }
{}

/// The rule of a plan finds tops alike exactly where they are, in its scope; and alike tops are chosen together, with what those that
/// move refer to.
pub fn rule_laws()
    ensures alike { AlikeLaw }
    ensures choice { ChoiceLaw }
{}

/// Where each file is by itself, no partial unit has its home in the common file, which has no unit.
pub fn apart_laws()
    ensures homes { HomesLaw }
    ensures any { AnyHomeLaw }
    ensures units { NoUnitsLaw }
{}

/// By the rows of tops and their plan it is known of each top whether it stays in its unit, and whether it is pinned.
pub fn mark_laws()
    ensures { MarksLaw }
{}
