//! Rows that have a copy of each entry.

ghost use Rattle.std.specs.Prelude.{◌≡◌, ◌+◌, ◌<◌, ◌^◌, length};
ghost use Rattle.dwz_model.specs.Lists.{Each};
ghost use Rattle.dwz_expand_sources.specs.Numbers.{range_count, ranges_count};
ghost use Rattle.dwz_expand_sources.specs.Sources.{IsRange};
ghost use Rattle.dwz_expand_sources.specs.Rows.{AreFirstFrom, HaveEntries, IsBlank, NameCopies, NotesUnit, entry_lists, noted, range_entries, with_root};

use crate::copies::CopyAt;
use crate::numbers::CopyNumbers;
use crate::sources::{SourceRange, Sources};

// Notes the copies of a range in a unit, of which the first has that number; and answers the number behind them.
fn note_range(row: &mut [CopyAt], unit: usize, range: &SourceRange, number: u64) -> u64
    requires range { IsRange (length row.old) range.now }
    requires few { number + range_count range.now < 2 ^ 64 }
    ensures row { row.new ≡ noted unit number (range_entries range.now) row.old }
    ensures behind { result ≡ number + range_count range.now }
{
    let mut at = number;
    for entry in range.first..range.end {
        row[entry as usize] = CopyAt { unit, number: at };
        at += 1;
    }
    at
}

// Notes the copies of a root and of ranges in a unit, of which that of the root has that number.
fn note_entries(row: &mut [CopyAt], unit: usize, root: u32, ranges: &[SourceRange], number: u64)
    requires root { root < length row.old }
    requires ranges { Each (IsRange (length row.old)) ranges.now }
    requires few { number + 1 + ranges_count ranges.now < 2 ^ 64 }
    ensures { row.new ≡ noted unit number (with_root root ranges.now) row.old }
{
    row[root as usize] = CopyAt { unit, number };
    let mut at = number + 1;
    for range in ranges {
        at = note_range(row, unit, range, at);
    }
}

/// Notes the copies in a new unit.
pub(crate) fn note_unit(row: &mut [CopyAt], sources: &Sources, numbers: &CopyNumbers, unit: usize)
    requires unit { unit < length sources.now.units }
    requires entries { HaveEntries (length row.old) sources.now numbers.now.roots }
    ensures { NotesUnit (entry_lists sources.now) unit row.old row.new }
{
    let new = sources.units()[unit];
    let ranges = &sources.ranges()[new.first..new.end];
    note_entries(row, unit, new.root, ranges, numbers.roots()[unit]);
}

/// Notes the first copy of each entry, where nothing is noted yet.
pub(crate) fn note_first(row: &mut [CopyAt], sources: &Sources, numbers: &CopyNumbers)
    requires entries { HaveEntries (length row.old) sources.now numbers.now.roots }
    requires blank { IsBlank (length sources.now.units) row.old }
    ensures name { NameCopies (entry_lists sources.now) row.new }
    ensures least { AreFirstFrom 0 (entry_lists sources.now) row.new }
{
    let mut unit = sources.units().len();
    while unit > 0 {
        unit -= 1;
        note_unit(row, sources, numbers, unit);
    }
}
