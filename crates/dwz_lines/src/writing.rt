//! A header that is written.

ghost use Rattle.std.specs.Prelude.{◌≡◌, ◌+◌, ◌<◌, ◌-◌, ◌^◌, ◌++◌, ◌∷◌, [], IfOk, OnOk, length};
ghost use Rattle.dwz_bytes.specs.Spelling.{le_bytes};
ghost use Rattle.dwz_def_reading.specs.LinesWritten.{behind_length, file_formats, header_written, one_directory, rows_bytes, standard};
ghost use Rattle.dwz_def_reading.specs.LinesWritten.{tables_written};

use dwz_bytes::put_uleb;
use dwz_model::{Names, NoMemory};
use std::alloc::Global;

// How many bytes stand before the tables: the length of the unit, the version, two sizes, the length of the header.
const BEFORE: usize = 12;

// The fields behind the header's length, one directory with an empty path, and the formats of files: a path that stands
// there, and a directory's index.
const FRONT: [u8; 28] = [
    0x01, 0x01, 0x01, 0xfb, 0x0e, 0x0d, 0x00, 0x01, 0x01, 0x01, 0x01, 0x00, 0x00, 0x00, 0x01, 0x00,
    0x00, 0x01, 0x01, 0x01, 0x08, 0x01, 0x00, 0x02, 0x01, 0x08, 0x02, 0x0f,
];

// Appends a row: the path and directory 0.
fn put_row(out: &mut Vec<u8>, path: &[u8]) -> Result<(), NoMemory>
    ensures { OnOk result (out.new.items ≡ out.old.items ++ (path.now ++ 0 ∷ 0 ∷ [])) }
{
    out.extend_from_slice(path)?;
    out.extend_from_slice(&[0, 0])
}

// The fields and tables that the header's length counts.
fn tables(alloc: Global, paths: &Names) -> Result<Vec<u8>, NoMemory>
    requires { 0 < length paths.now }
    ensures { IfOk result (λ out. out.items ≡ tables_written paths.now) }
{
    let paths = paths.as_slice();
    let mut out = Vec::new(alloc);
    out.extend_from_slice(&FRONT)?;
    put_uleb(&mut out, paths.len() as u64 + 1)?;
    put_row(&mut out, paths[0].as_slice())?;
    for path in paths {
        put_row(&mut out, path.as_slice())?;
    }
    Ok(out)
}

// The first bytes of a header whose tables have so many bytes.
fn before(tables: u32) -> [u8; 12]
    requires { tables < 2 ^ 32 - 8 }
    ensures { result ≡ le_bytes 4 (tables + 8) ++ (le_bytes 2 5 ++ (8 ∷ 0 ∷ [] ++ le_bytes 4 tables)) }
{
    let unit = (tables + 8).to_le_bytes();
    let header = tables.to_le_bytes();
    [
        unit[0], unit[1], unit[2], unit[3], 5, 0, 8, 0, header[0], header[1], header[2], header[3],
    ]
}

/// A line table of version 5 without a program (DWARF 5, 6.2.4), whose files are these paths, by their numbers from 1; row 0
/// has the first path too, so that no number is left out. There is a path, and what the table comes to is shorter than
/// 2^32 - 16 bytes.
pub fn write_header(alloc: Global, paths: &Names) -> Result<Vec<u8>, NoMemory>
    requires some { 0 < length paths.now }
    requires short { length (header_written paths.now) < 2 ^ 32 - 16 }
    ensures { IfOk result (λ out. out.items ≡ header_written paths.now) }
{
    let tables = tables(alloc, paths)?;
    let mut out = Vec::with_capacity(alloc, BEFORE + tables.len())?;
    out.extend_from_slice(&before(tables.len() as u32))?;
    out.extend_from_slice(&tables)?;
    Ok(out)
}
