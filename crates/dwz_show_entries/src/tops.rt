//! The tops in which entries stand.

use crate::values::show_text;
use dwz_graph::Graph;
use dwz_graph_view::{path_of, spaces_of, top_of};
use dwz_model::Place;
use std::alloc::Global;

// The names of the spaces around a top, the outermost first.
fn show_spaces(rt: &impl Print, alloc: Global, graph: &Graph, top: u32) -> anyhow::Result<()> {
    if let Some(names) = spaces_of(alloc, graph, top)? {
        for name in names.as_slice() {
            print!(rt; " in")?;
            show_text(rt, name)?;
        }
    }
    Ok(())
}

/// The number of the top in which an entry stands, with the way down to it, child by child, or the spaces around it where it is the top.
pub(crate) fn show_top(
    rt: &impl Print,
    alloc: Global,
    graph: &Graph,
    place: Place,
) -> anyhow::Result<()> {
    let Some(top) = top_of(graph, place) else {
        return Ok(());
    };
    print!(rt; ", top {top}")?;
    let Some(path) = path_of(alloc, graph, place)? else {
        return Ok(());
    };
    for index in path.as_slice() {
        print!(rt; ".{index}")?;
    }
    if path.as_slice().is_empty() {
        show_spaces(rt, alloc, graph, top)?;
    }
    Ok(())
}
