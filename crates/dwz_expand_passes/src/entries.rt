//! The entries of a new unit, from its root on.

ghost use Rattle.std.specs.Prelude.{◌<◌, ◌≤◌, ◌↔◌, ◌++◌, ℕ, [], IsTrue, List, OnOk};
ghost use Rattle.dwz_def_reading.specs.Units.{entries_in};
ghost use Rattle.dwz_expand_layout.specs.Depths.{DeepLine, with_ends};
ghost use Rattle.dwz_expand_layout.specs.Entries.{UnitLines};
ghost use Rattle.dwz_expand_layout.specs.Laid.{Made};
ghost use Rattle.dwz_expand_layout.specs.declared.entries.NewKind.{NewKind as Kind};
ghost use Rattle.dwz_expand_passes.specs.Steps.{AreCopied, KnowsHere, RefusesIn};
ghost use Rattle.dwz_expand_passes.specs.Noted.{AreNotedOf, Noted};
ghost use Rattle.dwz_expand_passes.specs.Files.{IsKnownReady, entry_count, raw_in};
ghost use Rattle.dwz_model.specs.Lists.{Each};

use crate::copied::{CopiedEntry, next_source};
use crate::files::Known;
use crate::pass::Pass;
use dwz_expand_sources::SourceWalk;
use dwz_model::ReadErr;

// Whether an entry is one of the common file: those have the numbers behind the file's own.
fn is_common(known: &Known, entry: u32) -> bool
    ensures { IsTrue result ↔ (entries_in (raw_in known.now.own) ≤ entry) }
{
    entry >= known.own.units.entries()
}

/// Takes all entries of the unit at hand. Refused at the first value that can't be copied.
pub(crate) fn pass_entries<'a, P: Pass>(
    pass: &mut P,
    known: &Known<'_, 'a>,
    walk: &mut SourceWalk,
    copied: &mut CopiedEntry<'a>,
) -> Result<(), ReadErr>
    requires ready { IsKnownReady known.now }
    requires there { Each (λ i. i < entry_count known.now) walk.old }
    ensures passed { OnOk result ((deep : List DeepLine) × AreCopied known.now walk.old deep
        × ((made : Made) (units : List UnitLines) (kind : Kind) → P.within made pass.old units kind []
        → P.within made pass.new units kind (with_ends deep))) }
    ensures noted { OnOk result ((given : List Noted)
        × AreNotedOf (KnowsHere known.now) known.now.own known.now.common known.now.unit walk.old given
        × ((before : List Noted) → P.noted pass.old before → P.noted pass.new (before ++ given))) }
    ensures refused { RefusesIn known.now walk.old result }
{
    let mut next = next_source(known, walk);
    while let Some(source) = next {
        next = next_source(known, walk);
        copied.copy(known, source, next)?;
        let common = is_common(known, source.entry);
        pass.put(known.unit, source.entry, common, &copied.entry())?;
    }
    Ok(())
}
