//! What the look for a text or a slot means.

ghost use Rattle.std.specs.Prelude.{◌≡◌, ℕ, ◌+◌, ◌<◌, ◌↔◌, List, Some, None, length, drop};
ghost use Rattle.dwz_bytes.specs.Laws.{One};
ghost use Rattle.dwz_def_reading.specs.Parts.{Again, Found};
ghost use Rattle.dwz_def_reading.specs.OffsetTables.{AreSlots, slots_in};
ghost use Rattle.dwz_def_reading.specs.Texts.{IsSlot, IsTextAt, NoZero, SpellsText, slot, slot_place, text_at, zero_ended_at};

/// Texts: the one that is found stands at the offset, and one that stands there is found; none is found exactly where no
/// zero byte follows the offset. A text at the front is read exactly where one is spelled, and no text begins another.
pub fn text_laws()
    ensures here { (section text : List ℕ) (offset : ℕ) → (text_at section offset ≡ Some text) ↔ IsTextAt section offset text }
    ensures none { (section : List ℕ) (offset : ℕ) → (text_at section offset ≡ None) ↔ NoZero (drop offset section) }
    ensures found { Found SpellsText zero_ended_at }
    ensures again { Again SpellsText zero_ended_at }
    ensures one { One SpellsText }
{}

/// Slots: the number that is found stands in the slot, and one that stands there is found; none is found exactly where the
/// section ends before the slot does.
pub fn slot_laws()
    ensures here { (section : List ℕ) (base index number : ℕ) → (slot section base index ≡ Some number) ↔ IsSlot section base index number }
    ensures none { (section : List ℕ) (base index : ℕ) → (slot section base index ≡ None) ↔ (length section < slot_place base index + 4) }
{}

/// String offsets tables: the places that are found are those of the slots of a row of contributions, and where a section is
/// such a row they are found.
pub fn offset_table_laws()
    ensures found { (section places : List ℕ) → (slots_in section ≡ Some places) ↔ AreSlots section places }
{}
