//! How the work on a module is cut into tickets.
ghost use Rattle.std.specs.Prelude.{◌≡◌, IfOk};
ghost use Rattle.worker_driver.specs.Plans.{IsPlanOf, IsListing, IsInverse};

use call_graph::{Graph, Order, pieces};
use graph_workers::graph_by_workers;
use ir_core::Module;
use std::alloc::{AllocError, Global};
use std::thread::Threads;

/// The calls of a module's functions, their pieces, and the tickets: one for each function, in the order from callees
/// to callers.
#[derive(Drop)]
pub struct Plan {
    pub(crate) graph: Graph,
    pub(crate) order: Order,
    /// For each function its ticket.
    pub(crate) tickets: Vec<usize>,
}

impl Plan {
    /// The plan of a module, whose calls so many workers find. Only `AllocError` refuses.
    pub fn new<R: Threads + Sync>(
        rt: &R,
        alloc: Global,
        module: &Module,
        workers: usize,
    ) -> Result<Plan, AllocError>
        ensures { IfOk result (λ plan. IsPlanOf «module».now plan) }
    {
        let _count = module.len();
        let graph = graph_by_workers(rt, alloc, module, workers)?;
        let order = pieces(alloc, &graph)?;
        let tickets = places(alloc, order.list.as_slice())?;
        Ok(Plan {
            graph,
            order,
            tickets,
        })
    }
}

/// For each number of the list its place in the list.
fn places(alloc: Global, list: &[usize]) -> Result<Vec<usize>, AllocError>
    requires { IsListing list.now }
    ensures { IfOk result (λ places. IsInverse list.now places.items) }
{
    let mut places = vec![in alloc; 0usize; list.len()]?;
    for i in 0..list.len() {
        places[list[i]] = i;
    }
    Ok(places)
}
