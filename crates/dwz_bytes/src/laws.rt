//! What holds between the spelling of numbers, reading them and writing them.

ghost use Rattle.std.specs.Prelude.{◌≡◌, ℕ, ℤ, ◌≤◌, ◌<◌, ◌^◌, true, List, length};
ghost use Rattle.dwz_bytes.specs.Laws.{IsCutShort, IsShortAt, IsWideAt, One, ReadNumberIsSpelled, SpelledNumberIsRead};
ghost use Rattle.dwz_bytes.specs.Reading.{fixed_at, sleb_at, uleb_at};
ghost use Rattle.dwz_bytes.specs.Spelling.{SpellsFixed, SpellsSleb, SpellsUleb, fits_i64, fits_u64, groups_value, le_bytes, padded};
ghost use Rattle.dwz_bytes.specs.Spelling.{signed_value, sleb, uleb};

/// Numbers of a fixed width: what is read is spelled, what is spelled is read whatever follows, no spelling begins
/// another, what is written is spelled, and it is Short exactly where fewer bytes are left.
pub fn fixed_laws()
    ensures found { (k : ℕ) → ReadNumberIsSpelled (SpellsFixed k) (fixed_at k) }
    ensures again { (k : ℕ) → SpelledNumberIsRead (SpellsFixed k) (fixed_at k) }
    ensures one { (k : ℕ) → One (SpellsFixed k) }
    ensures written { (k n : ℕ) → n < 256 ^ k → SpellsFixed k (le_bytes k n) n }
    ensures short { (k : ℕ) → IsShortAt (λ bytes. length bytes < k) (fixed_at k) }
{}

/// Unsigned LEB128 numbers: the same, and the spelling that is written is the shortest; a padded one spells the number.
pub fn uleb_laws()
    ensures found { ReadNumberIsSpelled SpellsUleb uleb_at }
    ensures again { SpelledNumberIsRead SpellsUleb uleb_at }
    ensures one { One SpellsUleb }
    ensures written { (n : ℕ) → n < 2 ^ 64 → SpellsUleb (uleb n) n }
    ensures shortest { (n : ℕ) (bytes : List ℕ) → SpellsUleb bytes n → length (uleb n) ≤ length bytes }
    ensures padded { (k n : ℕ) → 0 < k → k ≤ 10 → n < 128 ^ k → n < 2 ^ 64 → SpellsUleb (padded k n) n }
    ensures short { IsShortAt IsCutShort uleb_at }
    ensures wide { IsWideAt groups_value fits_u64 uleb_at }
{}

/// Signed LEB128 numbers: the same.
pub fn sleb_laws()
    ensures found { ReadNumberIsSpelled SpellsSleb sleb_at }
    ensures again { SpelledNumberIsRead SpellsSleb sleb_at }
    ensures one { One SpellsSleb }
    ensures written { (z : ℤ) → fits_i64 z ≡ true → SpellsSleb (sleb z) z }
    ensures shortest { (z : ℤ) (bytes : List ℕ) → SpellsSleb bytes z → length (sleb z) ≤ length bytes }
    ensures short { IsShortAt IsCutShort sleb_at }
    ensures wide { IsWideAt signed_value fits_i64 sleb_at }
{}
