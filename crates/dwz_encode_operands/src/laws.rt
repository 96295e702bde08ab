//! What first places are of the operands of a run.

ghost use Rattle.dwz_encode_operands.specs.Narrow.{FoundLaw, ListedLaw, NoneLaw, RunLaw};

/// By a run, operands get the places of what they name, and a first place is that of the first operand that is too narrow; where there is
/// none, no operand is. The operands of location lists that are kept, each once, have the first place of all.
pub fn first_laws()
    ensures run { RunLaw }
    ensures listed { ListedLaw }
    ensures found { FoundLaw }
    ensures none { NoneLaw }
{}
