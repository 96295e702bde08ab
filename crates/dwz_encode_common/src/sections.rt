//! The two sections of the common file that hold texts: `.debug_str`, and `.debug_line` with the paths of files.

ghost use Rattle.std.specs.Prelude.{◌≡◌, ◌<◌, ◌^◌, IfOk, length};
ghost use Rattle.dwz_def_reading.specs.ElfLayout.{too_large};
ghost use Rattle.dwz_def_reading.specs.LinesWritten.{header_written};
ghost use Rattle.dwz_def_encoding.specs.Placing.{lines_bytes, texts_bytes};

use crate::pool::Pool;
use dwz_bytes::put_uleb;
use dwz_layout::more;
use dwz_lines::write_header;
use dwz_model::{Blob, Names, NoMemory};
use std::alloc::{AllocError, Global};

// How many places four bytes can name.
const PLACES: u64 = 0x1_0000_0000;

// No length of a unit of the 32-bit format is so large (DWARF 5, 7.4).
const TOO_LARGE: u64 = 0xffff_fff0;

// How many bytes a header has but for its rows, and for how many rows there are; with the two bytes behind the path of row 0.
const FIXED: u64 = 42;

impl Pool {
    /// `.debug_str` of the common file (DWARF 5, 7.5.5, class string): the texts in order, each with a zero byte after it. `NoMemory` also
    /// where it has 2^32 bytes or more, since the place of a text has four.
    pub fn section(&self, alloc: Global) -> Result<Vec<u8>, NoMemory>
        ensures bytes { IfOk result (λ v. v.items ≡ texts_bytes self.now) }
        ensures few { IfOk result (λ v. length v.items < 2 ^ 32) }
    {
        let size = self.texts.size();
        if size >= PLACES {
            return Err(AllocError);
        }
        let mut out = Vec::with_capacity(alloc, size as usize)?;
        for number in 0..self.texts.len() {
            if let Some(text) = self.texts.text(number) {
                out.extend_from_slice(text)?;
                out.push(0)?;
            }
        }
        Ok(out)
    }

    // The texts, copied.
    fn names(&self, alloc: Global) -> Result<Names, NoMemory>
        ensures { IfOk result (λ names. names ≡ self.now) }
    {
        let mut names = Vec::with_capacity(alloc, self.texts.len() as usize)?;
        for number in 0..self.texts.len() {
            if let Some(text) = self.texts.text(number) {
                names.push(Blob::new(text.to_vec(alloc)?))?;
            }
        }
        Ok(Names::new(names))
    }

    // How many bytes the header of a line table has whose files are these paths.
    fn header_size(&self, alloc: Global) -> Result<u64, NoMemory>
        requires { 0 < length self.now }
        ensures { IfOk result (λ size. size ≡ length (header_written self.now)) }
    {
        let count = self.texts.len() as u64;
        let mut rows = Vec::new(alloc);
        put_uleb(&mut rows, count + 1)?;
        let front = more(FIXED, rows.len() as u64)?;
        let first = match self.texts.text(0) {
            Some(path) => path.len() as u64,
            None => 0,
        };
        let paths = more(self.texts.size(), count)?;
        more(more(front, first)?, paths)
    }

    // A line table whose files are these paths.
    fn header(&self, alloc: Global) -> Result<Vec<u8>, NoMemory>
        requires { 0 < length self.now }
        ensures bytes { IfOk result (λ v. v.items ≡ header_written self.now) }
        ensures few { IfOk result (λ v. length v.items < too_large) }
    {
        if self.header_size(alloc)? >= TOO_LARGE {
            return Err(AllocError);
        }
        let names = self.names(alloc)?;
        write_header(alloc, &names)
    }

    /// `.debug_line` of the common file (DWARF 5, 6.2.4): a line table without a program, whose files are these paths, by their numbers
    /// from 1. No bytes where there is no path. `NoMemory` also where it has 2^32 - 16 bytes or more, which no length of a unit counts.
    pub fn line_table(&self, alloc: Global) -> Result<Vec<u8>, NoMemory>
        ensures bytes { IfOk result (λ v. v.items ≡ lines_bytes self.now) }
        ensures few { IfOk result (λ v. length v.items < too_large) }
    {
        if self.texts.len() == 0 {
            return Ok(Vec::new(alloc));
        }
        self.header(alloc)
    }
}
