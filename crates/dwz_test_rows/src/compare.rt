//! What comes of a run, beside what is wanted. What differs is printed.

use crate::wrong::Wrong;
use std::alloc::Global;

// How many bytes are shown behind the first that differs.
const SHOWN: usize = 16;

/// Checks how a run ended: its status, and below it the text that it added on the console.
pub(crate) fn check_ending(rt: &impl Print, wanted: &str, came: &str) -> Result<(), Wrong> {
    if came == wanted {
        return Ok(());
    }
    println!(rt; "    {wanted:?} was wanted, and {came:?} came")?;
    Err(Wrong("a run ends otherwise"))
}

/// Checks what a name holds.
pub(crate) fn check_content(
    rt: &impl Print,
    alloc: Global,
    name: &str,
    wanted: Option<&[u8]>,
    came: Option<&[u8]>,
) -> Result<(), Wrong> {
    if came == wanted {
        return Ok(());
    }
    let at = first_difference(wanted.unwrap_or(&[]), came.unwrap_or(&[]));
    println!(rt; "    {name} differs at 0x{at:x}")?;
    show(rt, alloc, "was wanted", wanted, at)?;
    show(rt, alloc, "came", came, at)?;
    Err(Wrong("a name holds other bytes"))
}

// Prints bytes from a place on.
fn show(
    rt: &impl Print,
    alloc: Global,
    what: &str,
    bytes: Option<&[u8]>,
    at: usize,
) -> Result<(), Wrong> {
    let Some(bytes) = bytes else {
        println!(rt; "    nothing {what}")?;
        return Ok(());
    };
    let rest = bytes.get(at..).unwrap_or(&[]);
    let shown = hex::encode(alloc, rest.chunks(SHOWN).next().unwrap_or(&[]))?;
    println!(rt; "    of {} bytes {shown} {what} there", bytes.len())?;
    Ok(())
}

// Where the first byte stands that differs.
fn first_difference(wanted: &[u8], came: &[u8]) -> usize {
    let mut at = 0usize;
    for (one, other) in wanted.iter().zip(came) {
        if one != other {
            return at;
        }
        at = at.saturating_add(1);
    }
    at
}
