//! What is written of texts.

ghost use Rattle.dwz_encode_texts.specs.TextLaws.{NamesLaw, StandLaw, TextsLaw};

/// Files that share no texts with the common file: their texts, and the names of their spaces, are written where they stood, in a partial
/// unit by the bases of the unit that its values come from.
pub fn text_laws()
    ensures stand { StandLaw }
    ensures texts { TextsLaw }
    ensures names { NamesLaw }
{}
