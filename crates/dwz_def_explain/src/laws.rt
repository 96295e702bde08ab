//! What holds of chains of references, of what differs at their end, of verdicts, and of the answers to two places.

ghost use Rattle.dwz_def_explain.specs.ChainLaws.{DepthLaw, NoChainLaw, OneChainLaw};
ghost use Rattle.dwz_def_explain.specs.PlaceLaws.{OneAnswerLaw, SomeAnswerLaw};
ghost use Rattle.dwz_def_explain.specs.WhatLaws.{OneVerdictLaw, OneWhatLaw, SameOrWhatLaw, SomeVerdictLaw, WhatTellsLaw};

/// Laws on the tops of any units. The depth of the least chain for two tops is the least at which a look tells them apart. Two tops that
/// may move are alike exactly if no chain tells them apart. There is one least chain at most.
pub fn chain_laws()
    ensures depth { DepthLaw }
    ensures alike { NoChainLaw }
    ensures one { OneChainLaw }
{}

/// Laws on what differs between two tops by themselves. It tells them apart. Where they aren't the same by themselves there is such a
/// thing; and there is one at most.
pub fn what_laws()
    ensures tells { WhatTellsLaw }
    ensures either { SameOrWhatLaw }
    ensures one { OneWhatLaw }
{}

/// Laws on what is said of two tops of any units: there is one verdict at most, and where both may move there is one.
pub fn verdict_laws()
    ensures one { OneVerdictLaw }
    ensures some { SomeVerdictLaw }
{}

/// Laws on the answers to two places of any documents: what is printed, or which place is refused. There is one answer at most, and there
/// is one.
pub fn place_laws()
    ensures one { OneAnswerLaw }
    ensures some { SomeAnswerLaw }
{}
