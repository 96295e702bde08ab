//! Directories and files (DWARF 5, 6.2.4): formats, how many rows there are, and the rows.

ghost use Rattle.std.specs.Prelude.{◌≡◌, ◌||◌, map, min};
ghost use Rattle.dwz_lines.specs.Reading;
ghost use Rattle.dwz_lines.specs.Reading.{TriesAt, dirs_in, files_in, paths_in, rows_in};
ghost use Rattle.dwz_lines.specs.RowViews.{row_view, strings_view};
ghost use Rattle.dwz_lines.specs.TableViews.{dirs_view};
ghost use Rattle.dwz_lines.specs.Views.{format_views};

use crate::formats::{Format, formats, names_strs};
use crate::kept_rows::KeptRows;
use crate::rows::{Row, Strings, one_row};
use dwz_bytes::Cursor;
use dwz_model::{Fault, ReadErr};
use std::alloc::Global;

/// The paths of directories, by their numbers, and whether a format of theirs has the form strp.
#[derive(Drop)]
pub(crate) struct Directories<'a> {
    pub(crate) paths: Vec<&'a [u8]>,
    pub(crate) strp: bool,
}

// For how many rows there is room at once, at most: what a table says of their number isn't believed.
const ROOM: u64 = 64;

// For how many rows there is room at once, where a table says that it has so many.
fn room_for(count: u64) -> usize
    ensures { result ≡ min count 64 }
{
    count.min(ROOM) as usize
}

// The paths of so many directories.
#[tactic(auto, unfolding(crate::specs::Reading::paths_in))]
fn directory_paths<'a>(
    alloc: Global,
    cursor: &mut Cursor<'a>,
    formats: &[Format],
    count: u64,
    strings: Strings<'a>,
    bad: Fault,
) -> Result<Vec<&'a [u8]>, ReadErr>
    ensures { TriesAt (λ v. map (λ p. p.now) v.items) bad cursor.new result
        (paths_in (strings_view strings.entry) (format_views formats.now) count cursor.old) }
{
    let mut paths = Vec::with_capacity(alloc, room_for(count))?;
    for _number in 0..count {
        let Some(row) = one_row(cursor, formats, strings, count) else {
            return Err(ReadErr::Refused(bad));
        };
        paths.push(row.path)?;
    }
    Ok(paths)
}

/// The directories of a table.
#[tactic(auto, unfolding(crate::specs::Reading::dirs_in, crate::specs::Reading::paths_in))]
pub(crate) fn read_directories<'a>(
    alloc: Global,
    cursor: &mut Cursor<'a>,
    strings: Strings<'a>,
    bad: Fault,
) -> Result<Directories<'a>, ReadErr>
    ensures { TriesAt dirs_view bad cursor.new result (dirs_in (strings_view strings.entry) cursor.old) }
{
    let formats = formats(alloc, cursor, bad)?;
    let Ok(count) = cursor.uleb() else {
        return Err(ReadErr::Refused(bad));
    };
    let paths = directory_paths(alloc, cursor, &formats, count, strings, bad)?;
    let strp = names_strs(&formats);
    Ok(Directories { paths, strp })
}

// So many files, each in one of so many directories.
#[tactic(auto, unfolding(crate::specs::Reading::rows_in))]
fn rows_of_files<'a>(
    alloc: Global,
    cursor: &mut Cursor<'a>,
    formats: &[Format],
    count: u64,
    dirs: u64,
    strings: Strings<'a>,
    bad: Fault,
) -> Result<Vec<Row<'a>>, ReadErr>
    ensures { TriesAt (λ v. map row_view v.items) bad cursor.new result
        (rows_in (strings_view strings.entry) dirs (format_views formats.now) count cursor.old) }
{
    let mut rows = Vec::with_capacity(alloc, room_for(count))?;
    for _number in 0..count {
        let Some(row) = one_row(cursor, formats, strings, dirs) else {
            return Err(ReadErr::Refused(bad));
        };
        rows.push(row)?;
    }
    Ok(rows)
}

/// Whether there is a directory wherever there is a file.
pub(crate) fn has_dir(files: u64, dirs: u64) -> bool
    ensures { result ≡ Reading.has_dir files dirs }
{
    files == 0 || dirs > 0
}

/// Whether one of two holds.
pub(crate) fn either(one: bool, other: bool) -> bool
    ensures { result ≡ (one || other) }
{
    one || other
}

/// The files of a table, in these directories.
#[tactic(auto, unfolding(crate::specs::Reading::files_in))]
pub(crate) fn read_files<'a>(
    alloc: Global,
    cursor: &mut Cursor<'a>,
    dirs: Directories<'a>,
    strings: Strings<'a>,
    bad: Fault,
) -> Result<KeptRows<'a>, ReadErr>
    ensures { TriesAt (λ t. t) bad cursor.new result (files_in (strings_view strings.entry) (dirs_view dirs.entry) cursor.old) }
{
    let formats = formats(alloc, cursor, bad)?;
    let Ok(count) = cursor.uleb() else {
        return Err(ReadErr::Refused(bad));
    };
    let many = dirs.paths.len() as u64;
    if !has_dir(count, many) {
        return Err(ReadErr::Refused(bad));
    }
    let rows = rows_of_files(alloc, cursor, &formats, count, many, strings, bad)?;
    let has_strp = either(dirs.strp, names_strs(&formats));
    Ok(KeptRows {
        dirs: dirs.paths,
        rows,
        has_strp,
    })
}
