//! What is taken and what is blocked, from rows.

ghost use Rattle.std.specs.Prelude.{◌≡◌, ℕ, List, IfOk, length};
ghost use Rattle.dwz_def_reading.specs.Documents.{Doc};
ghost use Rattle.dwz_def_taken.specs.Beside.{reused_of};
ghost use Rattle.dwz_def_taken.specs.Laws.{ArePlacedOver};
ghost use Rattle.dwz_def_taken.specs.Takes.{IsFixed};
ghost use Rattle.dwz_match.specs.MatchRows.{AreKinRows, ShowMatch};
ghost use Rattle.dwz_takes.specs.Images.{AreApart};
ghost use Rattle.dwz_takes.specs.Takes.{AreRows};

use dwz_def_taken::Fixed;
use dwz_groups::Groups;
use dwz_model::{NoMemory, Numbers};
use dwz_takes::{Rows, blocked, images, takes};
use std::alloc::Global;

/// What units take, as which tops of the common file theirs are taken, and which tops have to stay: from rows of units and of partial
/// units, and for each top a number that just its kin have, and the tops that it refers into. `roots` are the offsets of the roots of the
/// common file.
pub fn fixed(
    alloc: Global,
    roots: Numbers,
    rows: &Rows,
    kin: &[u32],
    targets: &Groups,
) -> Result<Fixed, NoMemory>
    requires rows { AreRows rows.now }
    requires apart { AreApart rows.now }
    requires kin { AreKinRows (length rows.now.classes) kin.now targets.now }
    ensures roots { IfOk result (λ fixed. fixed.roots ≡ roots) }
    ensures lists { (docs : List (Doc ℕ)) (common : Doc ℕ) (name : ℕ → List (List ℕ)) → ArePlacedOver docs common
        → ShowMatch (reused_of docs common) name rows.now kin.now targets.now → IfOk result (IsFixed (reused_of docs common)) }
{
    let takes = takes(alloc, rows)?;
    let images = images(alloc, rows, takes.as_slice())?;
    let blocked = blocked(alloc, kin, images.as_slice(), targets)?;
    Ok(Fixed {
        roots,
        takes,
        images,
        blocked,
    })
}
