//! Which values are told.

ghost use Rattle.dwz_label_words.specs.Usual.{UsualLaw, UsualRowsLaw};

/// Laws on values and entries, of any file without a supplementary one. A value whose expressions have no operand names an entry only as a
/// reference; and so do the values of entries that have none, as those of tops that may move.
pub fn usual_laws()
    ensures values { UsualLaw }
    ensures rows { UsualRowsLaw }
{}
