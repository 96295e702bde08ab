//! The names of entries by their numbers are those of their places, and which of them are tops.

ghost use Rattle.dwz_graph.specs.IndexLaws.{FoundLaw, ManyLaw, NamedLaw, PlaceLaw, ShownLaw, SpacesLaw, UnitsLaw};

/// The entry with a number has in the document the name that stands for its place there. What a file says is what its units mean.
pub fn name_laws()
    ensures each { PlaceLaw }
    ensures means { UnitsLaw }
{}

/// The tops of a file by their numbers: there are as many as the definition counts; each has the name of a top, whose number is the one
/// behind that of the top before it; each entry with the name of a top is among them; and each is of the unit that the top with its
/// number is of, whatever names stand for places, and leads to the spaces that this top stands in.
pub fn top_laws()
    ensures many { ManyLaw }
    ensures named { NamedLaw }
    ensures found { FoundLaw }
    ensures shows { ShownLaw }
    ensures spaces { SpacesLaw }
{}
