//! The board machine: what workers do to the table that they share, as a machine over events, one atomic step of one
//! worker each.
#![tactic(auto)]

pub mod laws;
mod state;

pub use state::{BoardEvent, BoardState, Mark, Phase, step};
