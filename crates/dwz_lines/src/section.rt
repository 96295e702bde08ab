//! All tables of a section.

ghost use Rattle.std.specs.Prelude.{◌≡◌, ◌+◌, ◌≤◌, IfOk, drop, length};
ghost use Rattle.dwz_def_reading.specs.LineTables.{line_length};
ghost use Rattle.dwz_def_reading.specs.LineSection.{UsesStrp};
ghost use Rattle.dwz_lines.specs.TableViews.{sections};

use crate::header::four;
use crate::kept_rows::KeptRows;
use crate::tables::either;
use dwz_model::{NoMemory, ReadErr};
use std::alloc::{AllocError, Global};

// The place behind the unit of a line table.
fn behind(line: &[u8], place: usize) -> usize
    requires { place + (4 + line_length (drop place line.now)) ≤ length line.now }
    ensures { result ≡ place + (4 + line_length (drop place line.now)) }
{
    place + (4 + four(&line[place..], 0) as usize)
}

/// Whether a format of a table of `.debug_line` has the form strp, so that texts of it may stand in `.debug_str`. None exactly
/// where the section isn't a row of line tables that are read, without gaps.
pub fn uses_strp<'a>(
    alloc: Global,
    line: &'a [u8],
    line_strs: &'a [u8],
    strs: &'a [u8],
) -> Result<Option<bool>, NoMemory>
    ensures { IfOk result (λ r. UsesStrp (sections strs.now line_strs.now) line.now r) }
{
    let mut place = 0;
    let mut uses = false;
    while place < line.len() {
        match KeptRows::read(alloc, line, line_strs, strs, place as u64) {
            Ok(table) => {
                uses = either(uses, table.has_strp());
                place = behind(line, place);
            }
            Err(ReadErr::Refused(_)) => return Ok(None),
            Err(ReadErr::NoMemory) => return Err(AllocError),
        }
    }
    Ok(Some(uses))
}
