//! The plan and how it is made.
ghost use Rattle.std.specs.Prelude.{◌≡◌, ℕ, ◌+◌, ◌-◌, ◌<◌, ◌≤◌, ◌^◌, [], All, length, take, IfOk, slice_index, slice_index_or};
ghost use Rattle.dwz_plan.specs.Gained.{IsPlanOf};
ghost use Rattle.dwz_plan.specs.Over.{IsImageRow, IsPlanOver, own_units};
ghost use Rattle.dwz_plan.specs.Rows.{given};

use crate::moves::gaining_moves;
use crate::over::{first, free_tops, homes_over, stand_ins_over, standing_parts};
use crate::units::{imports, kept_of_units};
use dwz_def_taken::Fixed;
use dwz_groups::{Groups, Tops};
use dwz_model::{NoMemory, Numbers};
use std::alloc::Global;
use std::marker::Model;

/// Which files may share.
#[derive(Clone, Copy, Debug, PartialEq, Eq)]
pub enum Scope {
    /// All files together.
    Together,
    /// Each file by itself.
    Each,
}

/// Where a top goes.
#[derive(Clone, Copy, Debug, PartialEq, Eq)]
pub enum Home {
    /// Into this partial unit, which is of the common file.
    Common(u32),
    /// Into this partial unit, which is of the top's own file.
    Local(u32),
    /// It stays in its unit.
    Stay,
}

/// A partial unit.
#[derive(Debug, Drop)]
pub struct Partial {
    /// The number of the file that it stands in; the common file's is the number of files.
    pub file: u32,
    /// The numbers of the units that import it, in order.
    pub users: Numbers,
    /// The numbers of its tops, in order.
    pub tops: Numbers,
}

/// Which tops move into which partial units, what the units keep, and which partial units they import (DWARF 5, 3.2.5).
///
/// Clauses see it as the record `Planned` of `specs/Planned.antt`.
#[derive(Drop)]
pub struct Plan {
    partials: Vec<Partial>,
    homes: Vec<Home>,
    stand_ins: Vec<u32>,
    kept: Groups,
    imports: Groups,
}

impl Model for Plan {
    ghost use Rattle.dwz_plan.specs.Planned.{Planned};

    ghost Value = { Planned };

    ghost view = { λ p. record {
      partials = p.partials.items;
      homes = p.homes.items;
      stand_ins = p.stand_ins.items;
      kept = p.kept;
      imports =
          p.imports;
    } };
}

impl Plan {
    /// The plan of tops, if for each top `least` has the least number of a top alike to it. Tops that can't be moved
    /// are alike to none. Where each file is by itself, equal numbers in different files don't make tops alike.
    /// A group of tops, those with the same users, moves if that saves more than it takes, or if a top of a group that
    /// moves refers into it; all else stays.
    pub fn make(alloc: Global, tops: &Tops, least: &[u32], scope: Scope) -> Result<Plan, NoMemory>
        requires rows { length tops.now.rows < 2 ^ 32 }
        requires units { length tops.now.files_of_units < 2 ^ 32 }
        requires least { length least.now ≡ length tops.now.rows }
        requires inside { All (λ n. n < length tops.now.rows) least.now }
        requires of_units { All (λ row. row.unit < length tops.now.files_of_units) tops.now.rows }
        requires files { All (λ file. file < tops.now.files) tops.now.files_of_units }
        requires targets { length tops.now.targets ≡ length tops.now.rows }
        requires inside_targets { All (λ ts. All (λ t. t < length tops.now.rows) ts) tops.now.targets }
        ensures { IfOk result (λ plan. IsPlanOf (given scope tops.now least.now) plan) }
    {
        let moves = gaining_moves(alloc, tops, &tops.targets, least, least.len(), scope)?;
        let rows = tops.rows.as_slice();
        let units = tops.files_of_units.len();
        let kept = kept_of_units(alloc, rows, moves.homes.as_slice(), units)?;
        let imports = imports(alloc, moves.partials.as_slice(), units)?;
        Ok(Plan {
            partials: moves.partials,
            homes: moves.homes,
            stand_ins: moves.stand_ins,
            kept,
            imports,
        })
    }

    /// The plan of tops of files over a finished common file, whose units are the last ones; of them `fixed` says what the other units
    /// take. Its partial units come first, as they stand. A top that is taken goes to the one of its image, which stands for it. Of the
    /// other tops of the files those are planned that are free, each file by itself, as in `make`; all else stays.
    pub fn with_common(
        alloc: Global,
        tops: &Tops,
        least: &[u32],
        fixed: &Fixed,
    ) -> Result<Plan, NoMemory>
        requires room { length fixed.now.roots + length tops.now.rows < 2 ^ 32 }
        requires units { length tops.now.files_of_units < 2 ^ 32 }
        requires least { length least.now ≡ length tops.now.rows }
        requires inside { All (λ n. n < length tops.now.rows) least.now }
        requires of_units { All (λ row. row.unit < length tops.now.files_of_units) tops.now.rows }
        requires parts { length fixed.now.roots ≤ length tops.now.files_of_units }
        requires files { All (λ file. file < tops.now.files) (take (own_units tops.now fixed.now) tops.now.files_of_units) }
        requires targets { length tops.now.targets ≡ length tops.now.rows }
        requires takes { length fixed.now.takes ≡ length tops.now.files_of_units }
        requires inside_takes { All (λ parts. All (λ p. p < length fixed.now.roots) parts) fixed.now.takes }
        requires images { length fixed.now.images ≡ length tops.now.rows }
        requires inside_images { All (IsImageRow tops.now fixed.now) fixed.now.images }
        requires blocked { length fixed.now.blocked ≡ length tops.now.rows }
        ensures { IfOk result (λ plan. IsPlanOver tops.now least.now fixed.now plan) }
    {
        let free = free_tops(alloc, tops, fixed)?;
        let own = first(least, free.rows.len());
        let moves = gaining_moves(alloc, &free, &tops.targets, own, least.len(), Scope::Each)?;
        let mut partials = standing_parts(alloc, tops, fixed)?;
        let mut more = moves.partials;
        partials.append(&mut more)?;
        let homes = homes_over(alloc, tops, fixed, moves.homes.as_slice())?;
        let rows = tops.rows.as_slice();
        let count = rows.len();
        let stand_ins = stand_ins_over(alloc, count, fixed, moves.stand_ins.as_slice())?;
        let units = tops.files_of_units.len();
        let kept = kept_of_units(alloc, rows, homes.as_slice(), units)?;
        let imports = imports(alloc, partials.as_slice(), units)?;
        Ok(Plan {
            partials,
            homes,
            stand_ins,
            kept,
            imports,
        })
    }

    /// The partial units: those of the common file, and then those of each file. A partial unit's number is its place
    /// here.
    pub fn partials(&self) -> &[Partial]
        ensures { result.now ≡ self.now.partials }
    {
        self.partials.as_slice()
    }

    /// Where a top goes.
    pub fn home(&self, top: u32) -> Home
        requires { top < length self.now.homes }
        ensures { result ≡ slice_index_or self.now.homes top Home.Stay }
    {
        self.homes[top as usize]
    }

    /// What stands for a top after: the first top alike to it in its scope if it moves, and else itself.
    pub fn stand_in(&self, top: u32) -> u32
        requires { top < length self.now.stand_ins }
        ensures { result ≡ slice_index self.now.stand_ins top }
    {
        self.stand_ins[top as usize]
    }

    /// The tops of a unit that stay: first the pinned ones and then the others, both in order.
    pub fn kept(&self, unit: u32) -> &[u32]
        requires { unit < length self.now.kept }
        ensures { result.now ≡ slice_index_or self.now.kept unit [] }
    {
        self.kept.get(unit as usize)
    }

    /// The partial units that have a unit among their users, in order.
    pub fn imports(&self, unit: u32) -> &[u32]
        requires { unit < length self.now.imports }
        ensures { result.now ≡ slice_index_or self.now.imports unit [] }
    {
        self.imports.get(unit as usize)
    }
}
