//! The first pass over new units: it measures them.
//!
//! It keeps no attributes. Places have 64 bits; whether there are too many bytes is asked of the finished layout.

ghost use Rattle.std.specs.Prelude.{◌≡◌, IfOk, OnOk};
ghost use Rattle.dwz_expand_layout.specs.Entries.{CanWrite, line_view};
ghost use Rattle.dwz_expand_layout.specs.Laid;
ghost use Rattle.dwz_expand_layout.specs.Laid.{begun, ended, layout_view, nothing_laid, with_line};

use crate::entries::{NewEntry, NewKind};
use crate::layout::{LaidUnit, NewLayout};
use crate::sizes::{measure, uleb_len};
use dwz_layout::{Shapes, Tables, more};
use dwz_model::{NoMemory, Pair};
use std::alloc::{AllocError, Global};
use std::marker::Model;

/// The new units that are laid so far, and the one at hand. After an error it is of no use.
#[derive(Drop)]
pub struct Laying {
    layout: NewLayout,
    // Where the unit at hand begins, and the shapes of its entries.
    begin: u64,
    shapes: Shapes,
    // Room for the names and forms of an entry.
    room: Vec<Pair>,
}

impl Model for Laying {
    ghost use Rattle.dwz_expand_layout.specs.Laid.{Laying, layout_view};

    ghost Value = { Laying };

    ghost view = { λ l. record { made = layout_view l.layout; begin = l.begin; shapes = l.shapes } };
}

// How many bytes a header has.
fn header_size(kind: NewKind) -> u64
    ensures { result ≡ Laid.header_size kind }
{
    match kind {
        NewKind::Compile => 12,
        NewKind::OfType { .. } => 24,
    }
}

// A code as it is kept.
#[inline(always)]
fn kept_code(code: u64) -> Result<u32, NoMemory>
    ensures { IfOk result (λ kept. kept ≡ code) }
{
    if code > u32::MAX as u64 {
        return Err(AllocError);
    }
    Ok(code as u32)
}

impl Laying {
    /// No unit is laid.
    pub fn new(alloc: Global) -> Laying
        ensures { result ≡ nothing_laid }
    {
        Laying {
            layout: NewLayout {
                units: Vec::new(alloc),
                tables: Tables::new(alloc),
                places: Vec::new(alloc),
                codes: Vec::new(alloc),
                end: 0,
            },
            begin: 0,
            shapes: Shapes::new(alloc),
            room: Vec::new(alloc),
        }
    }

    /// A unit begins. More bytes than 64 bits can count count as memory that there isn't, here and below.
    pub fn begin(&mut self, kind: NewKind) -> Result<(), NoMemory>
        ensures { OnOk result (self.new ≡ begun self.old kind) }
    {
        self.begin = self.layout.end;
        self.shapes = Shapes::new(*self.room.allocator());
        self.layout.end = more(self.begin, header_size(kind))?;
        Ok(())
    }

    /// Its next entry. More declarations in a table than 32 bits can count are a want of memory too.
    pub fn add(&mut self, entry: &NewEntry) -> Result<(), NoMemory>
        requires { CanWrite entry.now }
        ensures { OnOk result (self.new ≡ with_line self.old (line_view entry.now)) }
    {
        let values = measure(&mut self.room, entry.attrs, entry.operands)?;
        let alloc = *self.room.allocator();
        let code = self
            .shapes
            .code_for(alloc, entry.tag, entry.children, &mut self.room)?;
        let at = self.layout.end;
        self.layout.places.push(at)?;
        self.layout.codes.push(kept_code(code)?)?;
        let coded = more(uleb_len(code), values)?;
        self.layout.end = more(more(at, coded)?, entry.ends)?;
        Ok(())
    }

    /// The unit ends.
    pub fn end(&mut self) -> Result<(), NoMemory>
        ensures { OnOk result (self.new ≡ ended self.old) }
    {
        let table = self.shapes.table(*self.room.allocator())?;
        let table = self.layout.tables.keep(table)?;
        self.layout.units.push(LaidUnit {
            at: self.begin,
            end: self.layout.end,
            table,
        })?;
        Ok(())
    }

    /// Where all stands.
    pub fn finish(self) -> NewLayout
        ensures { layout_view result ≡ self.made }
    {
        let Laying { layout, .. } = self;
        layout
    }
}
