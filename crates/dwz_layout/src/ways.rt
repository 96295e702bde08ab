//! What is written of a value, by its name and form, and by what holds the unit.

ghost use Rattle.std.specs.Prelude.{◌≡◌};
ghost use Rattle.dwz_layout.specs.Attributes;
ghost use Rattle.dwz_layout.specs.Attributes.{here_view};
ghost use Rattle.dwz_layout.specs.Ways;
ghost use Rattle.dwz_layout.specs.Ways.{holder_view, way_rows};

use crate::known::EntryTable;
use crate::order::Sort;
use dwz_codes::{
    DW_AT_SIBLING, DW_FORM_DATA1, DW_FORM_DATA2, DW_FORM_DATA4, DW_FORM_DATA8, DW_FORM_EXPRLOC,
    DW_FORM_IMPLICIT_CONST, DW_FORM_LINE_STRP, DW_FORM_REF_ADDR, DW_FORM_REF_UDATA, DW_FORM_REF1,
    DW_FORM_REF2, DW_FORM_REF4, DW_FORM_REF8, DW_FORM_SDATA, DW_FORM_STRP, DW_FORM_STRX,
    DW_FORM_STRX1, DW_FORM_STRX2, DW_FORM_STRX3, DW_FORM_STRX4, DW_FORM_UDATA, names_file,
};
use dwz_model::Pair;

/// What holds a unit that is written.
#[derive(Clone, Copy)]
pub enum UnitRole {
    /// It was read in the file.
    OldUnit,
    /// It is a partial unit of a file.
    NewUnit,
    /// It is a partial unit of the common file.
    CommonUnit,
}

/// A unit that is written: its number over all files, the common one first, and what holds it.
#[derive(Clone, Copy)]
pub struct WritingContext {
    pub unit: u32,
    pub holder: UnitRole,
}

/// What is written of a value.
#[derive(Clone, Copy)]
pub enum Rewrite {
    /// Nothing.
    Dropped,
    /// What was read.
    AsRead,
    /// What was read, a text that is stored by an offset or by a slot.
    KeepsText,
    /// Where the text stands that it names.
    AsText,
    /// The number of the path that it names, in the common file's line table.
    AsFile,
    /// The number of the entry that it names.
    AsEntry,
    /// The expression, with the numbers of the entries that it names.
    AsExpression,
}

/// The way of a form by rows of forms and ways, in an old unit, in a partial unit of a file, and in one of the common file.
macro_rules! ways {
    ($form:ident, $holder:ident: $($code:ident $old:ident $new:ident $common:ident),* $(,)?) => {
        match $form {
            $($code => match $holder { UnitRole::OldUnit => Rewrite::$old, UnitRole::NewUnit => Rewrite::$new, UnitRole::CommonUnit => Rewrite::$common },)*
            _ => Rewrite::AsRead,
        }
    };
}

// The way of a form.
#[inline(always)]
#[tactic(auto, unfolding(crate::specs::Ways::way_in))]
fn way_in(holder: UnitRole, form: u64) -> Rewrite
    ensures { result ≡ Ways.way_in (holder_view holder) form way_rows }
{
    ways! { form, holder:
        DW_FORM_DATA2 AsRead AsRead AsFile,
        DW_FORM_DATA4 AsRead AsRead AsFile,
        DW_FORM_DATA8 AsRead AsRead AsFile,
        DW_FORM_DATA1 AsRead AsRead AsFile,
        DW_FORM_SDATA AsRead AsRead AsFile,
        DW_FORM_STRP AsText AsText AsText,
        DW_FORM_UDATA AsRead AsRead AsFile,
        DW_FORM_REF_ADDR AsEntry AsEntry AsEntry,
        DW_FORM_REF1 AsEntry AsEntry AsEntry,
        DW_FORM_REF2 AsEntry AsEntry AsEntry,
        DW_FORM_REF4 AsEntry AsEntry AsEntry,
        DW_FORM_REF8 AsEntry AsEntry AsEntry,
        DW_FORM_REF_UDATA AsEntry AsEntry AsEntry,
        DW_FORM_EXPRLOC AsExpression AsExpression AsExpression,
        DW_FORM_STRX KeepsText AsText AsText,
        DW_FORM_LINE_STRP KeepsText KeepsText AsText,
        DW_FORM_IMPLICIT_CONST AsRead AsRead AsFile,
        DW_FORM_STRX1 KeepsText AsText AsText,
        DW_FORM_STRX2 KeepsText AsText AsText,
        DW_FORM_STRX3 KeepsText AsText AsText,
        DW_FORM_STRX4 KeepsText AsText AsText,
    }
}

/// What is written of a value with this name and form.
#[inline(always)]
pub fn way_of(holder: UnitRole, pair: &Pair) -> Rewrite
    ensures { result ≡ Ways.rewrite_of (holder_view holder) pair.now }
{
    if pair.name == DW_AT_SIBLING {
        return Rewrite::Dropped;
    }
    let way = way_in(holder, pair.form);
    if names_file(pair.name) {
        return way;
    }
    match way {
        Rewrite::AsFile => Rewrite::AsRead,
        other => other,
    }
}

/// The unit with a number, of that sort.
pub fn here_of(known: &EntryTable, unit: u32, sort: Sort) -> WritingContext
    ensures { here_view result ≡ Attributes.here_of known.now unit sort }
{
    let holder = if unit < known.commons {
        UnitRole::CommonUnit
    } else {
        match sort {
            Sort::Partial(_) => UnitRole::NewUnit,
            _ => UnitRole::OldUnit,
        }
    };
    WritingContext { unit, holder }
}
