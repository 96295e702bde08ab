//! What numbers and starts of texts in a row mean.

ghost use Rattle.std.specs.Prelude.{◌≡◌, ◌≢◌, ℕ, ◌↔◌, List, Some, None, length, slice_get, unwrap_or};
ghost use Rattle.dwz_def_reading.specs.TextRows.{AreDifferent, start_of, text_number, text_section, with_text};
ghost use Rattle.dwz_def_reading.specs.Texts.{IsTextAt, NoZero};

/// Texts of which no two are equal: a text's number is the place where it stands, and it has none exactly where it isn't there.
/// A text that is used keeps its number or gets the next, all others keep theirs, and still no two are equal. In the section
/// of the texts each stands where it starts.
pub fn text_row_laws()
    ensures number { (texts : List (List ℕ)) (text : List ℕ) (n : ℕ) → AreDifferent texts
        → (text_number texts text ≡ Some n) ↔ (slice_get texts n ≡ Some text) }
    ensures absent { (texts : List (List ℕ)) (text : List ℕ) → (text_number texts text ≡ None) ↔ ((n : ℕ) → slice_get texts n ≢ Some text) }
    ensures used { (texts : List (List ℕ)) (text : List ℕ) → text_number (with_text texts text) text
        ≡ Some (unwrap_or (text_number texts text) (length texts)) }
    ensures kept { (texts : List (List ℕ)) (text other : List ℕ) (n : ℕ) → text_number texts other ≡ Some n
        → text_number (with_text texts text) other ≡ Some n }
    ensures different { (texts : List (List ℕ)) (text : List ℕ) → AreDifferent texts → AreDifferent (with_text texts text) }
    ensures start { (texts : List (List ℕ)) (text : List ℕ) (at : ℕ) → NoZero text → start_of texts text ≡ Some at
        → IsTextAt (text_section texts) at text }
{}
