//! The files of a demonstration.

ghost use Rattle.std.specs.Prelude.{◌≡◌, ◌+◌, ◌^◌, ◌<◌, ◌≤◌, ◌∷◌, [], IfOk};
ghost use Rattle.dwz_gen.specs.Demo.{demo_file, demo_files, demo_info};
ghost use Rattle.dwz_def_reading.specs.PlainFile.{plain_section};
ghost use Rattle.dwz_sup.specs.Seen.{section_seen};

use crate::unit::{ABBREVS, put_unit};
use dwz_model::{Blob, NoMemory};
use dwz_sup::{PlainSection, plain_file};
use std::alloc::Global;

const EM_X86_64: u16 = 62;

// The units of a file, as its `.debug_info` holds them. The constant without a name counts from `first` on.
fn info_of(alloc: Global, n: u32, first: u32) -> Result<Vec<u8>, NoMemory>
    requires { first + n < 2 ^ 32 }
    ensures { IfOk result (λ info. info.items ≡ demo_info n first) }
{
    let mut info = Vec::new(alloc);
    for unit in 0..n {
        put_unit(&mut info, first + unit, unit)?;
    }
    Ok(info)
}

// A section without flags, whose content isn't entries of one size.
fn section<'a>(name: &'a [u8], bytes: &'a [u8]) -> PlainSection<'a>
    ensures { section_seen result ≡ plain_section name.now bytes.now }
{
    PlainSection {
        name,
        flags: 0,
        entry_size: 0,
        bytes,
    }
}

// A file of so many units.
fn file_of(alloc: Global, n: u32, first: u32) -> Result<Vec<u8>, NoMemory>
    requires few { n ≤ 10000 }
    requires fits { first + n < 2 ^ 32 }
    ensures { IfOk result (λ file. file.items ≡ demo_file n first) }
{
    let info = info_of(alloc, n, first)?;
    let sections = [
        section(b".debug_info", &info),
        section(b".debug_abbrev", ABBREVS),
    ];
    plain_file(alloc, EM_X86_64, 0, &sections)
}

/// The two files of a demonstration.
#[derive(Debug, Drop)]
pub struct Two {
    pub one: Blob,
    pub two: Blob,
}

/// The two files of a demonstration with `n` units each: ELF files of the plain layout with `.debug_info` and `.debug_abbrev`. All
/// units declare the same types and the same named constant. The second file's constants without a name count on where those of
/// the first end.
pub fn make(alloc: Global, n: u32) -> Result<Two, NoMemory>
    requires { (2 ≤ n) × (n ≤ 10000) }
    ensures { IfOk result (λ files. files.one ∷ files.two ∷ [] ≡ demo_files n) }
{
    Ok(Two {
        one: Blob::new(file_of(alloc, n, 0)?),
        two: Blob::new(file_of(alloc, n, n)?),
    })
}
