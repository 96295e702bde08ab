//! What the values of each unit stand in.

ghost use Rattle.std.specs.Prelude.{◌<◌, IfOk, length};
ghost use Rattle.dwz_check_labels.specs.Files.{AreHeres, IsHereOf};
ghost use Rattle.dwz_unit.specs.Rows.{units_of};

use dwz_graph::{Here, here_of};
use dwz_model::NoMemory;
use dwz_unit::Units;
use std::alloc::Global;

// Of the unit with a number.
fn here_in(units: &Units, n: u32) -> Here
    requires { n < length (units_of units.now) }
    ensures { IsHereOf (units_of units.now) n result }
{
    let unit = units.unit(n);
    here_of(units, n, &unit)
}

/// Of each unit in order.
pub fn heres_of(alloc: Global, units: &Units) -> Result<Vec<Here>, NoMemory>
    ensures { IfOk result (λ heres. AreHeres (units_of units.now) heres.items) }
{
    let mut heres = Vec::new(alloc);
    for n in 0..units.len() {
        heres.push(here_in(units, n))?;
    }
    Ok(heres)
}

/// Of the units of two files, and of those of their common one.
#[derive(Drop)]
pub(crate) struct Heres {
    pub old: Vec<Here>,
    pub new: Vec<Here>,
    pub common: Vec<Here>,
}

/// Of two files beside a common one.
pub(crate) fn heres_beside(
    alloc: Global,
    old: &Units,
    new: &Units,
    common: &Units,
) -> Result<Heres, NoMemory>
    ensures old { IfOk result (λ heres. AreHeres (units_of old.now) heres.old.items) }
    ensures new { IfOk result (λ heres. AreHeres (units_of new.now) heres.new.items) }
    ensures common { IfOk result (λ heres. AreHeres (units_of common.now) heres.common.items) }
{
    let old = heres_of(alloc, old)?;
    let new = heres_of(alloc, new)?;
    let common = heres_of(alloc, common)?;
    Ok(Heres { old, new, common })
}

/// Of two files without a common one.
pub(crate) fn heres_alone(alloc: Global, old: &Units, new: &Units) -> Result<Heres, NoMemory>
    ensures old { IfOk result (λ heres. AreHeres (units_of old.now) heres.old.items) }
    ensures new { IfOk result (λ heres. AreHeres (units_of new.now) heres.new.items) }
{
    let old = heres_of(alloc, old)?;
    let new = heres_of(alloc, new)?;
    let common = Vec::new(alloc);
    Ok(Heres { old, new, common })
}
