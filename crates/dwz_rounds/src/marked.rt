//! Numbers that are marked in a row, and the list of them, by which the marks are cleared.
ghost use Rattle.std.specs.Prelude.{◌≡◌, ℕ, ◌<◌, ◌≤◌, ◌∷◌, [], All, OnOk, length};
ghost use Rattle.dwz_rounds.specs.Marked.{AreMarked, ArePut};

use dwz_model::NoMemory;

/// Marks the number, unless it is marked already.
pub(crate) fn put(marks: &mut [bool], list: &mut Vec<u32>, number: u32) -> Result<(), NoMemory>
    requires inside { number < length marks.old }
    requires marked { AreMarked marks.old list.old.items }
    ensures len { (length marks.new ≡ length marks.old) × (length list.old.items ≤ length list.new.items) }
    ensures marked { OnOk result (AreMarked marks.new list.new.items) }
    ensures put { OnOk result (ArePut list.old.items (number ∷ []) list.new.items) }
{
    if !marks[number as usize] {
        list.push(number)?;
        marks[number as usize] = true;
    }
    Ok(())
}

/// Clears all marks.
pub(crate) fn clear(marks: &mut [bool], list: &mut Vec<u32>)
    requires { AreMarked marks.old list.old.items }
    ensures len { length marks.new ≡ length marks.old }
    ensures marked { AreMarked marks.new list.new.items }
    ensures none { list.new.items ≡ [] }
{
    unmark(marks, list.as_slice());
    list.clear();
}

fn unmark(marks: &mut [bool], list: &[u32])
    requires { AreMarked marks.old list.now }
    ensures len { length marks.new ≡ length marks.old }
    ensures marked { AreMarked marks.new [] }
{
    for number in list {
        marks[*number as usize] = false;
    }
}
