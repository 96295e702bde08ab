//! The units of a file in stretches.
//!
//! Workers write stretches and not units, since small units would cost a thread's work each. A unit's bytes follow from the finished layout
//! alone, so any cut gives the same; how long a stretch is comes from the layout, so nothing grows while it is written.

ghost use Rattle.std.specs.Prelude.{◌≡◌, ◌<◌, ◌≤◌, ℕ, List, length, IfOk};
ghost use Rattle.dwz_layout.specs.declared.known.EntryTable.{EntryTable};
ghost use Rattle.dwz_encode.specs.Pages.{units_page};
ghost use Rattle.dwz_encode.specs.Stretches.{stretches_page};

use dwz_layout::{OutUnit, UnitItems, behind};
use dwz_model::NoMemory;
use std::alloc::Global;

/// Units of a file that stand one behind the other.
#[derive(Clone, Copy)]
pub(crate) struct Stretch<'a> {
    /// The number of the first among all units that are written.
    pub(crate) first: u32,
    /// The units, with their entries in order.
    pub(crate) units: &'a [UnitItems],
    /// Where they are laid.
    pub(crate) laid: &'a [OutUnit],
    /// For how many bytes there is to be room: the first stretch has room for all others behind it.
    pub(crate) room: u64,
}

// How many units from the first on have so many bytes together, or all of them.
fn enough(laid: &[OutUnit], least: u64) -> usize
    requires { 0 < length laid.now }
    ensures some { 0 < result }
    ensures within { result ≤ length laid.now }
{
    let start = laid[0].at;
    for i in 0..laid.len() {
        if laid[i].end.saturating_sub(start) >= least {
            return i + 1;
        }
    }
    laid.len()
}

// How many bytes units have that stand one behind the other.
fn size(laid: &[OutUnit]) -> u64 {
    match (laid.first(), laid.last()) {
        (Some(first), Some(last)) => last.end.saturating_sub(first.at),
        _ => 0,
    }
}

// For how many bytes a stretch has room, of a file that has so many.
fn room(all: u64, is_first: bool, laid: &[OutUnit]) -> u64 {
    if is_first { all } else { size(laid) }
}

/// The units of a file in stretches, each of at least so many bytes, but for the last one. The first unit has that number, and all have so
/// many bytes together.
pub(crate) fn stretches<'a>(
    alloc: Global,
    first: u32,
    units: &'a [UnitItems],
    laid: &'a [OutUnit],
    all: u64,
    least: u64,
) -> Result<Vec<Stretch<'a>>, NoMemory>
    ensures { (k : EntryTable) (places roots : List ℕ)
        → IfOk result (λ v. stretches_page k places roots v.items ≡ units_page k places roots first units.now laid.now) }
{
    let mut stretches = Vec::new(alloc);
    let mut here = first;
    let mut left = units;
    let mut left_laid = laid;
    while !left.is_empty() && !left_laid.is_empty() {
        let count = enough(left_laid, least).min(left.len());
        let (these, later) = left.split_at(count);
        let (these_laid, later_laid) = left_laid.split_at(count);
        let reserved = room(all, stretches.is_empty(), these_laid);
        stretches.push(Stretch {
            first: here,
            units: these,
            laid: these_laid,
            room: reserved,
        })?;
        here = behind(here, count)?;
        left = later;
        left_laid = later_laid;
    }
    Ok(stretches)
}
