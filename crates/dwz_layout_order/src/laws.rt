//! What is written shows the units after.

ghost use Rattle.dwz_layout_order.specs.Shown.{KeptLaw, LeadLaw, PartLaw, SaidLaw};

/// What is written of the old units of a file of which something moves shows these units after, in order.
pub fn kept_laws()
    ensures { KeptLaw }
{}

/// Rows of spaces lead from each top of a file out to the spaces that the top stands in, by their names; and where they do, what is written
/// of a partial unit shows the unit after.
pub fn part_laws()
    ensures leads { LeadLaw }
    ensures said { SaidLaw }
    ensures part { PartLaw }
{}
