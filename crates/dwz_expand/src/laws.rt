//! What a graph of one file is, what it has kept of the operands of lists, and what is the same along a function of places.

ghost use Rattle.dwz_expand.specs.Kept.{KeptListsLaw};
ghost use Rattle.dwz_expand.specs.OneKnown.{KeysLaw, OneKnownLaw, ReadyLaw};
ghost use Rattle.dwz_expand.specs.Plans.{NewFileLaw};
ghost use Rattle.dwz_expand.specs.Refused.{FaultLaw, NumbersLaw};

use dwz_graph::placed_laws;

/// What is kept of the one file of a graph, and of its common file, is what `dwz_expand_passes` asks for, of a file with places that the
/// graph has read; and numbers stand for these places as the laws on what is written ask. Copies
/// have the numbers that are counted; and with a plan and its copies, what is kept is ready for its values to be looked at.
/// New units that have the copies of the plan are the new file.
pub(crate) fn known_laws()
    ensures files { OneKnownLaw }
    ensures keys { KeysLaw }
    ensures ready { ReadyLaw }
    ensures new { NewFileLaw }
{
    placed_laws();
}

/// What a graph of one file has kept of its location lists is of the file that the definition speaks of, whatever its places are: the operands
/// of the lists that its values name, each once and in order of place, and the section.
pub(crate) fn listed_laws()
    ensures { KeptListsLaw }
{}

/// The first refusal of the values of a file that is written without its partial units, where numbers stand for places, is the one that the
/// file has.
pub(crate) fn fault_laws()
    ensures faults { FaultLaw }
    ensures files { NumbersLaw }
{}
