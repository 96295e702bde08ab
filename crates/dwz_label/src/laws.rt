//! What labels and nodes say of tops.

ghost use Rattle.dwz_label.specs.LabelLaws.{BareLaw, ClosedNodesLaw, LabelLaw, LeastLaw, LooksLaw, MadeLaw, NumberLaw, OneLeastLaw};

/// Laws on labels, of any tops. Two labels are equal exactly if the languages, the name lists and the bare trees are. Each
/// number of 64 bits has its shortest LEB128 spelling there (DWARF 5, 7.6).
pub fn label_laws()
    ensures same { LabelLaw }
    ensures numbers { NumberLaw }
{}

/// Laws on the nodes of the tops of any units. Two tops are the same along a test of the tops of their targets exactly if they
/// are the same but for these, and the test holds of each two targets. So a look of a depth finds two movable tops
/// equal exactly if it finds their nodes equal, and the least alike nodes are the least alike tops. Two tops are alike, in
/// either scope, exactly if both are movable, they are in one scope, and their least alike tops are one.
pub fn node_laws()
    ensures bare { BareLaw }
    ensures closed { ClosedNodesLaw }
    ensures looks { LooksLaw }
    ensures least { LeastLaw }
    ensures alike { OneLeastLaw }
{}

/// A law on nodes that are made from lists. Where the lists show the tops of any units, with the first of equal labels, the nodes
/// are those of these tops.
pub fn made_laws()
    ensures { MadeLaw }
{}
