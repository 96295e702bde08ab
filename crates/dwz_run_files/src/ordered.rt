//! What is written of files, in order.

ghost use Rattle.std.specs.Prelude.{◌≡◌, ◌<◌, ◌^◌, length, IfOk};
ghost use Rattle.dwz_law_layout.specs.Beside.{Standing};
ghost use Rattle.dwz_run_files.specs.OverRun.{AreOrderedOver, IsSettledOver};
ghost use Rattle.dwz_run_files.specs.SettledRun.{AreOrdered, IsInOrder, IsSettledRun};

use crate::ranks::firsts_over;
use crate::settled::SettledRun;
use crate::{Written, firsts_of, ranks_of};
use dwz_graph::Graph;
use dwz_layout::FileItems;
use dwz_layout_order::{orders_of_files, orders_over};
use dwz_model::NoMemory;
use std::alloc::Global;

/// What is written of files, and where the units of each are counted.
#[derive(Drop)]
pub struct OrderedFiles {
    /// The units of the common file, none where it stands already, and then those of each file that is written, by their ranks.
    pub orders: Vec<FileItems>,
    /// For each file that was read its rank among those that are written, or none where it isn't written.
    pub ranks: Vec<Option<u32>>,
    /// For each order the number of its first unit among all units that are written.
    pub firsts: Vec<u32>,
}

impl OrderedFiles {
    /// The same, borrowed.
    pub fn as_written(&self) -> Written<'_>
        ensures ranks { result.ranks.now ≡ self.now.ranks.items }
        ensures orders { result.orders.now ≡ self.now.orders.items }
        ensures firsts { result.firsts.now ≡ self.now.firsts.items }
    {
        Written {
            ranks: self.ranks.as_slice(),
            orders: self.orders.as_slice(),
            firsts: self.firsts.as_slice(),
        }
    }
}

// The units of each file that is written, with their entries.
fn orders_of(alloc: Global, graph: &Graph, run: &SettledRun) -> Result<Vec<FileItems>, NoMemory>
    requires few { length graph.now.given < 2 ^ 32 }
    requires run { IsSettledRun graph.now.given run.now }
    ensures { IfOk result (λ orders. IsInOrder graph.now.given run.now orders.items) }
{
    let settled = run.settled.as_settled();
    orders_of_files(alloc, graph, &settled)
}

/// What is written of settled files.
pub(crate) fn order_run(
    alloc: Global,
    graph: &Graph,
    run: &SettledRun,
) -> Result<OrderedFiles, NoMemory>
    requires few { length graph.now.given < 2 ^ 32 }
    requires run { IsSettledRun graph.now.given run.now }
    ensures { IfOk result (AreOrdered graph.now.given run.now) }
{
    let orders = orders_of(alloc, graph, run)?;
    let ranks = ranks_of(alloc, run.settled.written.as_slice())?;
    let firsts = firsts_of(alloc, orders.as_slice())?;
    Ok(OrderedFiles {
        orders,
        ranks,
        firsts,
    })
}

/// What is written of settled files over a common file that stands, which has so many units.
pub(crate) fn order_over(
    alloc: Global,
    graph: &Graph,
    run: &SettledRun,
    commons: u32,
) -> Result<OrderedFiles, NoMemory>
    requires few { length graph.now.given < 2 ^ 32 }
    requires run { (s : Standing) × IsSettledOver s graph.now.given run.now }
    ensures { (s : Standing) → IsSettledOver s graph.now.given run.now → commons ≡ length s.file.raw
        → IfOk result (AreOrderedOver s graph.now.given run.now) }
{
    let settled = run.settled.as_settled();
    let orders = orders_over(alloc, graph, &settled)?;
    let ranks = ranks_of(alloc, run.settled.written.as_slice())?;
    let firsts = firsts_over(alloc, commons, orders.as_slice())?;
    Ok(OrderedFiles {
        orders,
        ranks,
        firsts,
    })
}
