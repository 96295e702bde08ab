//! The least alike tops decide, for a plan, which tops are alike; and what labels without languages say.

ghost use Rattle.dwz_label_files.specs.Bare.{BareLabelLaw};
ghost use Rattle.dwz_label_files.specs.LeastLaws.{ApartPlanLaw, TogetherPlanLaw};

/// Laws on rows that show the tops of any units and say rightly which of them may move: by the least alike tops a plan decides,
/// in either scope, which tops are alike, just as the definition does.
pub fn plan_laws()
    ensures together { TogetherPlanLaw }
    ensures apart { ApartPlanLaw }
{}

/// A law on labels without languages, of any tops. Two are equal exactly if the name lists and the bare trees are.
pub fn bare_laws()
    ensures { BareLabelLaw }
{}
