//! Declarations that entries have.

ghost use Rattle.std.specs.Prelude.{◌≡◌, ◌<◌, All, IfOk, length, map};
ghost use Rattle.dwz_unit.specs.Known.{row_view};
ghost use Rattle.dwz_unit.specs.Spans.{IsWithin, KeepsUsed};

use crate::flat_rows::{FlatRows, PairRows, Span};
use crate::rows::Row;
use dwz_model::NoMemory;
use std::alloc::Global;

// The parts of the declarations that entries have. Those of the others are empty.
fn used_spans(alloc: Global, spans: &[Span], entries: &[Row]) -> Result<Vec<Span>, NoMemory>
    requires { All (λ row. row.decl < length spans.now) entries.now }
    ensures { IfOk result (λ used. KeepsUsed spans.now used.items entries.now) }
{
    let mut used = vec![in alloc; Span { first: 0, count: 0 }; spans.len()]?;
    for row in entries {
        let decl = row.decl as usize;
        used[decl] = spans[decl];
    }
    Ok(used)
}

/// The names and forms of the declarations that entries have. The others have none.
pub(crate) fn used_pairs(
    alloc: Global,
    decls: PairRows,
    entries: &[Row],
) -> Result<PairRows, NoMemory>
    requires { All (λ row. row.decl < length decls) entries.now }
    ensures { IfOk result (λ used. map (row_view used) entries.now ≡ map (row_view decls) entries.now) }
{
    let (pairs, spans) = decls.into_parts();
    let used = used_spans(alloc, spans.as_slice(), entries)?;
    Ok(FlatRows::from_parts(pairs, used))
}
