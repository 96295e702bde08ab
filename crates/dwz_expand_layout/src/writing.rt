//! The second pass over new units: it writes them, once all are laid.

ghost use Rattle.std.specs.Prelude.{◌≡◌, ◌++◌, IfOk, OnOk, replicate};
ghost use Rattle.dwz_encode.specs.Pages.{entry_page};
ghost use Rattle.dwz_expand_layout.specs.Entries.{CanWrite, line_call, line_view};
ghost use Rattle.dwz_expand_layout.specs.Laid.{layout_view};
ghost use Rattle.dwz_expand_layout.specs.Written.{header_page, kind_byte, kind_page, nothing_written, numbers_view, with_entry};
ghost use Rattle.dwz_expand_layout.specs.Written.{with_header};

use crate::entries::{NewEntry, NewKind};
use crate::layout::{LaidUnit, NewLayout};
use crate::numbers::{Numbers, place_of, put_four};
use crate::values::put_values;
use dwz_bytes::{put_fixed, put_uleb};
use dwz_codes::{DW_UT_COMPILE, DW_UT_TYPE};
use dwz_layout::more;
use dwz_model::{NoMemory, at_or};
use std::alloc::Global;
use std::marker::Model;

/// The bytes of new units so far, and where they are laid. After an error it is of no use.
#[derive(Drop)]
pub struct Writing<'l> {
    layout: &'l NewLayout,
    out: Vec<u8>,
    // How many units and entries are written.
    units: u64,
    copies: u64,
    // Where the unit at hand begins.
    begin: u64,
}

impl<'l> Model for Writing<'l> {
    ghost use Rattle.dwz_expand_layout.specs.Laid.{layout_view};
    ghost use Rattle.dwz_expand_layout.specs.Written.{Writing};

    ghost Value = { Writing };

    ghost view = { λ w.
        record { made = layout_view w.layout.now; out = w.out.items; units = w.units; copies = w.copies; begin = w.begin } };
}

// The byte for the type of a unit.
fn type_of(kind: NewKind) -> u8
    ensures { result ≡ kind_byte kind }
{
    match kind {
        NewKind::Compile => DW_UT_COMPILE,
        NewKind::OfType { .. } => DW_UT_TYPE,
    }
}

// Appends what a type unit has in its header besides.
fn put_kind(out: &mut Vec<u8>, kind: NewKind, numbers: Numbers) -> Result<(), NoMemory>
    ensures { OnOk result (out.new.items ≡ out.old.items ++ kind_page (numbers_view numbers.entry) kind) }
{
    if let NewKind::OfType { signature, main } = kind {
        put_fixed(out, 8, signature)?;
        put_four(out, place_of(numbers, main).saturating_sub(numbers.unit))?;
    }
    Ok(())
}

// Appends the header of a unit.
fn put_header(
    out: &mut Vec<u8>,
    kind: NewKind,
    unit: &LaidUnit,
    numbers: Numbers,
) -> Result<(), NoMemory>
    ensures { OnOk result (out.new.items ≡ out.old.items ++ header_page (numbers_view numbers.entry) kind unit.now) }
{
    put_four(out, unit.end.saturating_sub(unit.at).saturating_sub(4))?;
    out.extend_from_slice(&[5, 0, type_of(kind), 8])?;
    put_four(out, unit.table)?;
    put_kind(out, kind, numbers)
}

// Appends the ends of so many lists.
#[inline(always)]
fn put_ends(out: &mut Vec<u8>, count: u64) -> Result<(), NoMemory>
    ensures { OnOk result (out.new.items ≡ out.old.items ++ replicate count 0) }
{
    for _ in 0..count {
        out.push(0)?;
    }
    Ok(())
}

// Appends an entry under its code, and the ends behind it.
#[inline(always)]
fn put_entry(
    out: &mut Vec<u8>,
    numbers: Numbers,
    entry: &NewEntry,
    code: u32,
) -> Result<(), NoMemory>
    requires { CanWrite entry.now }
    ensures { OnOk result (out.new.items ≡ out.old.items
        ++ entry_page code (line_call (numbers_view numbers.entry) (line_view entry.now))) }
{
    put_uleb(out, code as u64)?;
    put_values(out, numbers, entry.attrs, entry.operands)?;
    put_ends(out, entry.ends)
}

impl<'l> Writing<'l> {
    /// No unit is written, of those that are laid there.
    pub fn new(alloc: Global, layout: &'l NewLayout) -> Result<Writing<'l>, NoMemory>
        ensures { IfOk result (λ w. w ≡ nothing_written (layout_view layout.now)) }
    {
        Ok(Writing {
            layout,
            out: Vec::with_capacity(alloc, layout.end as usize)?,
            units: 0,
            copies: 0,
            begin: 0,
        })
    }

    /// The next unit begins, of the kind with which it was laid.
    pub fn begin(&mut self, kind: NewKind) -> Result<(), NoMemory>
        ensures { OnOk result (self.new ≡ with_header self.old kind) }
    {
        let none = LaidUnit {
            at: 0,
            end: 0,
            table: 0,
        };
        let unit = at_or(self.layout.units.as_slice(), self.units as usize, none);
        let numbers = Numbers {
            places: self.layout.places.as_slice(),
            unit: unit.at,
        };
        put_header(&mut self.out, kind, &unit, numbers)?;
        self.units = more(self.units, 1)?;
        self.begin = unit.at;
        Ok(())
    }

    /// Its next entry, which is the one that was laid there.
    pub fn add(&mut self, entry: &NewEntry) -> Result<(), NoMemory>
        requires { CanWrite entry.now }
        ensures { OnOk result (self.new ≡ with_entry self.old (line_view entry.now)) }
    {
        let numbers = Numbers {
            places: self.layout.places.as_slice(),
            unit: self.begin,
        };
        let code = at_or(self.layout.codes.as_slice(), self.copies as usize, 0);
        put_entry(&mut self.out, numbers, entry, code)?;
        self.copies = more(self.copies, 1)?;
        Ok(())
    }

    /// The bytes.
    pub fn finish(self) -> Vec<u8>
        ensures { result.items ≡ self.entry.out }
    {
        let Writing { out, .. } = self;
        out
    }
}
