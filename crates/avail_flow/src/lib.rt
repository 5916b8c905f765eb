//! Which values are available at a place of a function, by a tree of dominators.
#![tactic(auto)]

mod avail;
mod definitions;
mod depth_first;
mod dominators;
mod edges;
mod incoming;
mod jumps;
mod lifting;
mod search;
mod semidominators;
mod settled;
mod tree;

pub use avail::{Avail, flow};
pub use edges::{ends_block, target_at};
