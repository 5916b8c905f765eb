//! The calls of a module, found by several workers.
#![tactic(auto)]

mod making;
mod ranges;

pub use making::graph_by_workers;
