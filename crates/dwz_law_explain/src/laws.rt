//! What the least way between nodes says of tops.

ghost use Rattle.dwz_law_explain.specs.WayLaws.{AlikeLaw, ChainLaw, DifferLaw, EndLaw};

/// Laws on the nodes of the tops of any units, of two that may move. Where their nodes are alike, the tops are. The least way of nodes has
/// the numbers of the least chain of references that tells the tops apart, and leads to the nodes of the tops at its end. So with what
/// differs between these it is the verdict on the two.
pub fn way_laws()
    ensures alike { AlikeLaw }
    ensures chain { ChainLaw }
    ensures ends { EndLaw }
    ensures differ { DifferLaw }
{}
