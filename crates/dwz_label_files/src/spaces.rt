//! The spaces that a top stands in.

ghost use Rattle.std.specs.Prelude.{◌≡◌, ℕ, ◌++◌, List, OnOk, reverse};
ghost use Rattle.dwz_label_files.specs.Spaces.{IsBefore};
ghost use Rattle.dwz_graph.specs.Chains.{IsOut};

use dwz_graph::SpaceEntry;
use dwz_model::NoMemory;

// The space before a number, where there is one. The first space has the number `first`.
#[inline(always)]
fn space_before(spaces: &[SpaceEntry], first: u32, number: u32) -> Option<SpaceEntry>
    ensures { IsBefore first spaces.now number result }
{
    if number <= first {
        return None;
    }
    let i = (number - first - 1) as usize;
    if i >= spaces.len() {
        return None;
    }
    Some(spaces[i])
}

// Appends the entries of the spaces from one outward. It is the one before `inner`.
fn put_outward(
    spaces: &[SpaceEntry],
    first: u32,
    inner: u32,
    entries: &mut Vec<u32>,
) -> Result<(), NoMemory>
    ensures { (out : List ℕ) → IsOut first spaces.now inner out → OnOk result (entries.new.items ≡ entries.old.items ++ out) }
{
    let mut at = inner;
    'outward: loop {
        let Some(space) = space_before(spaces, first, at) else {
            return Ok(());
        };
        if space.outer >= at {
            return Ok(());
        }
        entries.push(space.entry)?;
        at = space.outer;
    }
}

/// The entries of the spaces around a top, the outermost first. The innermost is the one before `inner`. They take the place of what
/// stands in the row.
pub(crate) fn put_spaces(
    spaces: &[SpaceEntry],
    first: u32,
    inner: u32,
    entries: &mut Vec<u32>,
) -> Result<(), NoMemory>
    ensures { (out : List ℕ) → IsOut first spaces.now inner out → OnOk result (entries.new.items ≡ reverse out) }
{
    entries.clear();
    put_outward(spaces, first, inner, entries)?;
    entries.reverse();
    Ok(())
}
