//! What gains, of units.

ghost use Rattle.dwz_plan.specs.GainLaws.{GroupsLaw, MarkedLaw, PartsLaw};

/// If groups are those of the tops of units, and rows show the weights and the targets of these, then what `gaining_groups` marks are just
/// the groups that gain. The partial units of all tops with a home are groups, and those of what gains are the ones among them that gain.
pub fn gain_laws()
    ensures marked { MarkedLaw }
    ensures groups { GroupsLaw }
    ensures parts { PartsLaw }
{}
