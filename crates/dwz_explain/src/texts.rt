//! What is printed of two tops.

ghost use Rattle.std.specs.Prelude.{◌≡◌, ◌∷◌, ◌<◌, ◌++◌, [], IfOk, codes, decimal, length, suc};
ghost use Rattle.dwz_def_explain.specs.Chain.{GoesInto};
ghost use Rattle.dwz_def_explain.specs.Explained.{IsExplained};
ghost use Rattle.dwz_def_explain.specs.Texts.{explained_text, places_text, reference_lines};
ghost use Rattle.dwz_def_reading.specs.Lists.{In};
ghost use Rattle.dwz_def_tops.specs.Alike.{Movable};
ghost use Rattle.dwz_def_tops.specs.Spots.{Top, tops_of, units_of};
ghost use Rattle.dwz_explain.specs.Leading.{LeadsOn};
ghost use Rattle.dwz_explain.specs.Reached.{IsAsked};
ghost use Rattle.dwz_graph.specs.Files.{docs_of};
ghost use Rattle.dwz_move_files.specs.Outlines.{IsOutline};
ghost use Rattle.dwz_text.specs.Lines;

use crate::asked::{Asked, asked_of};
use crate::differences::{path_of, what_line};
use crate::lines::{alike_line, depth_line, reference_line};
use crate::spots::{place_of_top, spot_along, spot_of_top};
use dwz_def_explain::{Verdict, What};
use dwz_graph::Graph;
use dwz_groups::Tops;
use dwz_model::{Blob, NoMemory};
use std::alloc::Global;

// The top that a reference of a top goes into, by its number; where there is no such reference, the top itself.
fn target_of(run: &Asked, top: u32, number: u32) -> u32
    requires asked { IsAsked run.now }
    requires there { top < length (tops_of (units_of (docs_of run.now.graph.now.given))) }
    ensures there { result < length (tops_of (units_of (docs_of run.now.graph.now.given))) }
    ensures target { (t u : Top) → In t (tops_of (units_of (docs_of run.now.graph.now.given)))
        → Movable (units_of (docs_of run.now.graph.now.given)) t.number → t.number ≡ top → GoesInto number t u → result ≡ u.number }
{
    let targets = run.tops.targets.get(top as usize);
    let i = number as usize;
    if i < targets.len() { targets[i] } else { top }
}

// The line of a reference and of the two tops that it goes into.
fn line_of(run: &Asked, number: u32, first: u32, second: u32) -> Result<Vec<u8>, NoMemory>
    requires asked { IsAsked run.now }
    requires first { first < length (tops_of (units_of (docs_of run.now.graph.now.given))) }
    requires second { second < length (tops_of (units_of (docs_of run.now.graph.now.given))) }
    ensures { (t u : Top) → In t (tops_of (units_of (docs_of run.now.graph.now.given))) → In u (tops_of (units_of (docs_of run.now.graph.now.given)))
        → t.number ≡ first → u.number ≡ second
        → IfOk result (λ text. text.items ≡ Lines.line (codes "reference " ∷ decimal number ∷ codes ": "
        ∷ places_text (docs_of run.now.graph.now.given) t.node u.node ∷ [])) }
{
    let a = place_of_top(run, first).offset;
    let b = place_of_top(run, second).offset;
    reference_line(run.alloc, number, a, b)
}

// The line of what differs between two tops.
fn last_line(run: &Asked, what: &What, first: u32, second: u32) -> Result<Vec<u8>, NoMemory>
    requires asked { IsAsked run.now }
    requires first { first < length (tops_of (units_of (docs_of run.now.graph.now.given))) }
    requires second { second < length (tops_of (units_of (docs_of run.now.graph.now.given))) }
    ensures { (t u : Top) → In t (tops_of (units_of (docs_of run.now.graph.now.given))) → In u (tops_of (units_of (docs_of run.now.graph.now.given)))
        → t.number ≡ first → u.number ≡ second
        → IfOk result (λ text. text.items ≡ reference_lines (docs_of run.now.graph.now.given) (tops_of (units_of (docs_of run.now.graph.now.given))) []
        what.now t u) }
{
    let path = path_of(what);
    let a = spot_along(run, spot_of_top(run, first), path);
    let b = spot_along(run, spot_of_top(run, second), path);
    what_line(run, what, a, b)
}

// The lines of a chain from two tops, and of what differs at its end.
fn lines_of(run: &Asked, chain: &[u32], what: &What, a: u32, b: u32) -> Result<Vec<u8>, NoMemory>
    requires asked { IsAsked run.now }
    requires first { a < length (tops_of (units_of (docs_of run.now.graph.now.given))) }
    requires second { b < length (tops_of (units_of (docs_of run.now.graph.now.given))) }
    ensures { (x y : Top) → LeadsOn (units_of (docs_of run.now.graph.now.given)) chain.now a b x y
        → IfOk result (λ text. text.items ≡ Lines.line (codes "depth " ∷ decimal (suc (length chain.now)) ∷ [])
        ++ reference_lines (docs_of run.now.graph.now.given) (tops_of (units_of (docs_of run.now.graph.now.given))) chain.now what.now x y) }
{
    let mut text = depth_line(run.alloc, chain)?;
    let mut first = a;
    let mut second = b;
    for number in chain {
        first = target_of(run, first, *number);
        second = target_of(run, second, *number);
        let line = line_of(run, *number, first, second)?;
        text.extend_from_slice(&line)?;
    }
    let line = last_line(run, what, first, second)?;
    text.extend_from_slice(&line)?;
    Ok(text)
}

/// What is printed of two tops that may move, by what is said of them: that they are alike, or the least chain, line by line, and what
/// differs at its end. The tops are `a` and `b`, by their numbers among those of all files, whose outline is `tops`. The only error is
/// that memory ran out.
pub fn explain_text(
    alloc: Global,
    graph: &Graph,
    tops: &Tops,
    a: u32,
    b: u32,
    verdict: &Verdict,
) -> Result<Blob, NoMemory>
    requires tops { IsOutline (docs_of graph.now.given) tops.now }
    requires first { Movable (units_of (docs_of graph.now.given)) a }
    requires second { Movable (units_of (docs_of graph.now.given)) b }
    ensures { (x y : Top) → In x (tops_of (units_of (docs_of graph.now.given))) → In y (tops_of (units_of (docs_of graph.now.given))) → x.number ≡ a
        → y.number ≡ b → IsExplained (units_of (docs_of graph.now.given)) x y verdict.now
        → IfOk result (λ text. text ≡ explained_text (docs_of graph.now.given) x y verdict.now) }
{
    match verdict {
        Verdict::Alike => Ok(Blob::new(alike_line(alloc)?)),
        Verdict::Differ { chain, what } => {
            let run = asked_of(alloc, graph, tops);
            let text = lines_of(&run, chain.as_slice(), what, a, b)?;
            Ok(Blob::new(text))
        }
    }
}
