//! The call graph of a module, made by several workers at once.
ghost use Rattle.std.specs.Prelude.{◌≡◌, IfOk};
ghost use Rattle.call_graph.specs.Calls.{graph_of};

use crate::ranges::CallRanges;
use call_graph::Graph;
use ir_core::Module;
use range_workers::read_by_workers;
use std::alloc::{AllocError, Global};
use std::thread::Threads;

/// How many functions a stretch takes at the least. Each stretch has marks for all functions of the module, so there
/// are to be few; and so many functions take longer than a worker takes to start.
const LEAST_STRETCH: usize = 4_096;

/// The calls of a module, as `call_graph::graph` makes them, found by so many workers, each for a range of functions.
/// Linear in the module, and for each worker in the number of functions, for each of which it has a mark in memory. One
/// worker, and a module of few functions, goes by the calling thread alone. Only `AllocError` refuses.
pub fn graph_by_workers<R: Threads + Sync>(
    rt: &R,
    alloc: Global,
    module: &Module,
    workers: usize,
) -> Result<Graph, AllocError>
    ensures { IfOk result (λ graph. graph ≡ graph_of «module».now) }
{
    let count = module.len();
    let ranges = CallRanges { module };
    let size = (count / workers.max(1)).max(LEAST_STRETCH);
    match read_by_workers(rt, alloc, &ranges, 0, count, workers, size) {
        Some(calls) => Ok(Graph::of_calls(calls)),
        None => Err(AllocError),
    }
}
