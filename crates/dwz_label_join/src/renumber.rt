//! Labels, told by other names.

ghost use Rattle.std.specs.Prelude.{◌≡◌, ℕ, ◌+◌, ◌*◌, ◌<◌, ◌^◌, ◌++◌, List, Some, IfOk, OnOk, drop, length, slice_get};
ghost use Rattle.dwz_label.specs.Labels.{number};
ghost use Rattle.dwz_label_join.specs.Joined.{AreNumbersIn};
ghost use Rattle.dwz_label_marks.specs.Marks.{Mark};
ghost use Rattle.dwz_label_marks.specs.Told.{Adds, Tells};

use dwz_label_marks::put_named;
use dwz_model::NoMemory;

// Appends the number that stands at a place, as it is. The answer is where it ends.
fn put_same(out: &mut Vec<u8>, label: &[u8], start: usize) -> Result<usize, NoMemory>
    requires { start < length label.now }
    ensures more { IfOk result (λ end. start < end) }
    ensures told { (word : ℕ) (rest : List ℕ) → drop start label.now ≡ number word ++ rest
        → IfOk result (λ end. (drop end label.now ≡ rest) × (out.new.items ≡ out.old.items ++ number word)) }
{
    let mut at = start;
    'groups: while at < label.len() {
        let group = label[at];
        out.push(group)?;
        at += 1;
        if group < 128 {
            return Ok(at);
        }
    }
    Ok(at)
}

// Appends the mark of the name whose number stands there.
fn put_nth(out: &mut Vec<u8>, numbers: &[u32], at: u64) -> Result<(), NoMemory>
    ensures { (n : ℕ) → slice_get numbers.now at ≡ Some n → OnOk result (out.new.items ≡ out.old.items ++ number (2 * n + 1)) }
{
    if at >= numbers.len() as u64 {
        return Ok(());
    }
    put_named(out, numbers[at as usize])
}

// Appends the mark of the name that the mark at a place names, by its other number. The answer is where the mark ends.
fn put_other(
    out: &mut Vec<u8>,
    label: &[u8],
    numbers: &[u32],
    start: usize,
) -> Result<usize, NoMemory>
    requires there { start < length label.now }
    requires few { length numbers.now < 2 ^ 32 }
    ensures more { IfOk result (λ end. start < end) }
    ensures told { (name n : ℕ) (rest : List ℕ) → drop start label.now ≡ number (2 * name + 1) ++ rest → slice_get numbers.now name ≡ Some n
        → IfOk result (λ end. (drop end label.now ≡ rest) × (out.new.items ≡ out.old.items ++ number (2 * n + 1))) }
{
    let mut at = start;
    let mut scale = 1u64;
    let mut word = 0u64;
    'groups: while at < label.len() {
        let group = label[at] as u64;
        word = word.saturating_add(scale.saturating_mul(group % 128));
        at += 1;
        if group < 128 {
            put_nth(out, numbers, word / 2)?;
            return Ok(at);
        }
        scale = scale.saturating_mul(128);
    }
    Ok(at)
}

/// Appends a label that tells marks by names, told by other names: where `numbers` has of each name the number that it has among the others.
pub fn put_renumbered(out: &mut Vec<u8>, label: &[u8], numbers: &[u32]) -> Result<(), NoMemory>
    requires { length numbers.now < 2 ^ 32 }
    ensures { (names others : List (List ℕ)) (marks : List Mark) → Tells names marks label.now → AreNumbersIn names others numbers.now
        → OnOk result (Adds others marks out.old.items out.new.items) }
{
    let mut at = 0;
    'marks: while at < label.len() {
        if label[at] % 2 == 0 {
            at = put_same(out, label, at)?;
        } else {
            at = put_other(out, label, numbers, at)?;
        }
    }
    Ok(())
}
