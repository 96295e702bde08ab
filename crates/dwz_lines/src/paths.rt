//! Paths, joined with their directories.

ghost use Rattle.std.specs.Prelude.{◌≡◌, ◌≤◌, ◌++◌, IfOk, OnOk, drop, map, take, vec_len};
ghost use Rattle.dwz_def_reading.specs.LineTables;
ghost use Rattle.dwz_lines.specs.Reading.{path_in, path_or_none, path_with};
ghost use Rattle.dwz_lines.specs.RowViews.{row_view};

use crate::rows::Row;
use dwz_model::NoMemory;
use std::alloc::Global;

// Whether a path stands for itself, wherever it is seen from.
fn begins_with_slash(path: &[u8]) -> bool
    ensures { result ≡ LineTables.begins_with_slash path.now }
{
    match path.first() {
        Some(byte) => *byte == b'/',
        None => false,
    }
}

// Puts a path into the one that begins at a place of `out` and ends where it does: they are joined by a slash, unless the
// path begins with one, or there is nothing to join it to.
fn join(out: &mut Vec<u8>, from: usize, path: &[u8]) -> Result<(), NoMemory>
    requires { from ≤ vec_len out.old }
    ensures { OnOk result (out.new.items ≡ take from out.old.items ++ LineTables.join (drop from out.old.items) path.now) }
{
    if begins_with_slash(path) || out.len() == from {
        out.truncate(from);
        return out.extend_from_slice(path);
    }
    out.push(b'/')?;
    out.extend_from_slice(path)
}

// The path of a directory, and an empty one where there is none.
fn dir<'a>(dirs: &[&'a [u8]], number: u64) -> &'a [u8]
    ensures { result.now ≡ path_or_none (map (λ d. d.now) dirs.now) number }
{
    match dirs.get(number as usize) {
        Some(path) => *path,
        None => &[],
    }
}

// Appends the path of a file, which is seen from its directory, which is seen from the first one.
fn append(out: &mut Vec<u8>, first: &[u8], dir: &[u8], row: &Row) -> Result<(), NoMemory>
    ensures { OnOk result (out.new.items ≡ out.old.items ++ path_with first.now dir.now (row_view row.now)) }
{
    let from = out.len();
    out.extend_from_slice(first)?;
    if row.dir != 0 {
        join(out, from, dir)?;
    }
    join(out, from, row.path)
}

/// The path of a file, which is seen from its directory, which is seen from the first one.
pub(crate) fn joined(
    alloc: Global,
    first: &[u8],
    dir: &[u8],
    row: &Row,
) -> Result<Vec<u8>, NoMemory>
    ensures { IfOk result (λ path. path.items ≡ path_with first.now dir.now (row_view row.now)) }
{
    let dirs = first.len().saturating_add(dir.len());
    let room = dirs.saturating_add(row.path.len()).saturating_add(2);
    let mut path = Vec::with_capacity(alloc, room)?;
    append(&mut path, first, dir, row)?;
    Ok(path)
}

/// The path of a file in one of these directories.
pub(crate) fn joined_in(alloc: Global, dirs: &[&[u8]], row: &Row) -> Result<Vec<u8>, NoMemory>
    ensures { IfOk result (λ path. path.items ≡ path_in (map (λ d. d.now) dirs.now) (row_view row.now)) }
{
    joined(alloc, dir(dirs, 0), dir(dirs, row.dir), row)
}
