//! What holds of users, of homes, of choices, of partial units and of what is kept.

ghost use Rattle.dwz_def_plan.specs.Fair.{FairLaw};
ghost use Rattle.dwz_def_plan.specs.PlanLaws.{AlikeTopsLaw, AllLaw, DecidedLaw, GainLaw, GainRuleLaw, HomeLaw, ImportsLaw, KeptLaw};
ghost use Rattle.dwz_def_plan.specs.PlanLaws.{KeptOrderLaw, KeptRowLaw, OnePlanLaw, PartOrderLaw, PartRowLaw, PlanLaw, RepLaw, TargetsLaw, UsersLaw};

/// Laws on which tops may be chosen to move, for any test that finds tops alike exactly where they are: all that have a home; and
/// those whose groups gain. A chain of as many references as there are tops decides which groups gain. So the tests of alike tops and
/// of gain make a rule as is asked, and each rule that is as is asked has the same plan. Such a rule is fair.
pub fn choice_laws()
    ensures all { AllLaw }
    ensures gain { GainLaw }
    ensures decided { DecidedLaw }
    ensures rule { GainRuleLaw }
    ensures one { OnePlanLaw }
    ensures fair { FairLaw }
{}

/// Laws on where tops go, for any test that finds tops alike exactly where they are, in either scope, and any choice of those that
/// move.
///
/// The users of a top are the units that have an alike top in scope, in order. What stands for a movable top is the first alike
/// top in scope. A home is as the files of the users ask. Alike tops have the same users, one representative and one home. What
/// a moving top refers to moves too, and is used wherever the top is used.
///
/// The partial units of files, by rising numbers, are as they are asked for. What is kept of a unit is just its tops that stay, and
/// all its spaces; in the root and in each space the pinned ones stand first, and then the others, both in their old order. A partial
/// unit holds its tops in spaces with their names: first those in no space, and then one chain of spaces for each other name list, each
/// in order. And a unit imports just the partial units that have it among their users, once each and in order.
pub fn plan_laws()
    ensures users { UsersLaw }
    ensures rep { RepLaw }
    ensures home { HomeLaw }
    ensures alike { AlikeTopsLaw }
    ensures targets { TargetsLaw }
    ensures plan { PlanLaw }
    ensures kept { KeptLaw }
    ensures rows { KeptRowLaw }
    ensures row_order { KeptOrderLaw }
    ensures parts { PartRowLaw }
    ensures part_order { PartOrderLaw }
    ensures imports { ImportsLaw }
{}
