//! Which tops move, and what is left of that where only groups move that gain.
ghost use Rattle.std.specs.Prelude.{◌≡◌, ℕ, ◌+◌, ◌-◌, ◌<◌, ◌≤◌, ◌^◌, All, Bool, List, length, map, IfOk};
ghost use Rattle.dwz_plan.specs.Gained.{AreMoves, group_of};
ghost use Rattle.dwz_plan.specs.Gaining.{AreNumbers};
ghost use Rattle.dwz_plan.specs.Planned.{partials, place, reps_of};
ghost use Rattle.dwz_plan.specs.Rows.{given, with_targets};

use crate::gained::{homes_after, marks_of, partials_after};
use crate::homes::{homes, stand_ins};
use crate::parted::part_movers;
use crate::plan::{Home, Partial, Scope};
use crate::reps::reps;
use crate::users::users;
use dwz_groups::{Groups, Tops};
use dwz_model::NoMemory;
use std::alloc::Global;

// If each top with a home moves: the partial units, which are the groups, and for each top where it goes and the first top
// alike to it.
#[derive(Drop)]
struct AllMoves {
    partials: Vec<Partial>,
    homes: Vec<Home>,
    reps: Vec<u32>,
}

fn find_moves(
    alloc: Global,
    tops: &Tops,
    least: &[u32],
    bound: usize,
    scope: Scope,
) -> Result<AllMoves, NoMemory>
    requires rows { length tops.now.rows < 2 ^ 32 }
    requires units { length tops.now.files_of_units < 2 ^ 32 }
    requires least { length least.now ≡ length tops.now.rows }
    requires inside { All (λ n. n < bound) least.now }
    requires of_units { All (λ row. row.unit < length tops.now.files_of_units) tops.now.rows }
    requires files { All (λ file. file < tops.now.files) tops.now.files_of_units }
    ensures partials { IfOk result (λ m. m.partials.items ≡ partials (given scope tops.now least.now)) }
    ensures few { IfOk result (λ m. length m.partials.items ≤ length tops.now.rows) }
    ensures homes { IfOk result (λ m. let g = given scope tops.now least.now in m.homes.items ≡ map (place g) g.rows) }
    ensures reps { IfOk result (λ m. m.reps.items ≡ reps_of (given scope tops.now least.now)) }
{
    let files_of_units = tops.files_of_units.as_slice();
    let reps = reps(alloc, tops, least, bound, scope)?;
    let users = users(
        alloc,
        tops.rows.as_slice(),
        reps.as_slice(),
        files_of_units.len(),
    )?;
    let parted = part_movers(alloc, &users, files_of_units, tops.files)?;
    let homes = homes(alloc, reps.as_slice(), parted.of_movers.as_slice())?;
    Ok(AllMoves {
        partials: parted.partials,
        homes,
        reps,
    })
}

/// The partial units, and for each top where it goes and what stands for it after.
#[derive(Drop)]
pub(crate) struct Moves {
    pub(crate) partials: Vec<Partial>,
    pub(crate) homes: Vec<Home>,
    pub(crate) stand_ins: Vec<u32>,
}

/// The moves of groups that gain, of tops with these targets, if all least numbers are below that bound.
pub(crate) fn gaining_moves(
    alloc: Global,
    tops: &Tops,
    targets: &Groups,
    least: &[u32],
    bound: usize,
    scope: Scope,
) -> Result<Moves, NoMemory>
    requires rows { length tops.now.rows < 2 ^ 32 }
    requires units { length tops.now.files_of_units < 2 ^ 32 }
    requires least { length least.now ≡ length tops.now.rows }
    requires inside { All (λ n. n < bound) least.now }
    requires of_units { All (λ row. row.unit < length tops.now.files_of_units) tops.now.rows }
    requires files { All (λ file. file < tops.now.files) tops.now.files_of_units }
    requires targets { length tops.now.rows ≤ length targets.now }
    ensures moves { IfOk result (λ m. let g = given scope (with_targets targets.now tops.now) least.now in (marks : List Bool)
        × AreMoves g marks m.partials.items m.homes.items m.stand_ins.items) }
    ensures few { IfOk result (λ m. length m.partials.items ≤ length tops.now.rows) }
    ensures numbers { IfOk result (λ m. All (λ h. AreNumbers (length tops.now.rows) (group_of h)) m.homes.items) }
{
    let moves = find_moves(alloc, tops, least, bound, scope)?;
    let marks = marks_of(
        alloc,
        moves.partials.as_slice(),
        moves.homes.as_slice(),
        tops.rows.as_slice(),
        targets,
    )?;
    let homes = homes_after(alloc, moves.homes.as_slice(), marks.as_slice())?;
    let partials = partials_after(alloc, moves.partials, marks.as_slice())?;
    let stand_ins = stand_ins(alloc, homes.as_slice(), moves.reps.as_slice())?;
    Ok(Moves {
        partials,
        homes,
        stand_ins,
    })
}
