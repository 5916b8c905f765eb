//! Which functions of a module call which, and the pieces of functions that reach each other. A piece is what is
//! elsewhere called a strongly connected component.
#![tactic(auto)]

mod calls;
pub mod laws;
mod making;
mod ordering;
mod ready;
mod search;
mod stack;
mod turns;

pub use calls::Graph;
pub use making::{callee_number, find_calls, graph};
pub use ordering::{Order, pieces};
