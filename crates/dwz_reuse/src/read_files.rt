//! From files that were read to what looks over them ask for.

ghost use Rattle.dwz_reuse.specs.Placed.{BesideLaw, PartialLaw, PlacedLaw};
ghost use Rattle.dwz_reuse.specs.Read.{CommonReadLaw};

use dwz_graph::placed_laws;

/// Of files that are kept, and of a finished common file that was read beside them by numbers for places: they have places over each
/// other, and the common one has partial units alone. Where files were read behind it, each says what it does by itself, and the common
/// file says this by its offsets.
pub fn read_laws()
    ensures placed { PlacedLaw }
    ensures partial { PartialLaw }
    ensures beside { BesideLaw }
{
    placed_laws();
}

/// The finished common file of a graph is read as is asked for, and says this by its offsets.
pub fn common_laws()
    ensures { CommonReadLaw }
{}
