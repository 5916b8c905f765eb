//! Pieces of functions, and an order from callees to callers.
ghost use Rattle.std.specs.Prelude.{◌≡◌, IfOk};
ghost use Rattle.call_graph.specs.Calls.{graph_of};
ghost use Rattle.call_graph.specs.Orders.{IsOrderOf};
ghost use Rattle.ir_core.specs.Module.{Module};
ghost use Rattle.ir_core.specs.WellFormed.{DifferentNames};

use crate::calls::Graph;
use crate::search::least_nodes;
use crate::turns::ordered;
use ir_core::List;
use std::alloc::{AllocError, Global};

/// The pieces of functions that reach each other, and an order in which each function stands behind those in other
/// pieces that it calls. Functions go by their numbers.
#[derive(Drop)]
pub struct Order {
    /// For each function the least function of its piece.
    pub piece: List<usize>,
    /// Each function once: of the pieces not yet placed whose callees in other pieces are all placed, the one with the
    /// least function comes next, its functions in module order.
    pub list: List<usize>,
}

/// The pieces of a graph and their order. Linear in functions and calls, but for a logarithm a piece; without
/// recursion. Only `AllocError` refuses.
pub fn pieces(alloc: Global, graph: &Graph) -> Result<Order, AllocError>
    ensures { IfOk result (λ order. (m : Module) → DifferentNames m → graph.now ≡ graph_of m → IsOrderOf m order) }
{
    let piece = least_nodes(alloc, graph)?;
    let list = ordered(alloc, graph, &piece)?;
    Ok(Order {
        piece: List::from_vec(piece),
        list: List::from_vec(list),
    })
}
