//! What stands in a range, found stretch by stretch, by several workers at once.
#![tactic(auto)]

mod drawing;
mod ranges;
mod room;

pub use drawing::{PARTS_OF_A_WORKER, map_drawn};
pub use ranges::{Ranges, end_behind, join_items, read_by_workers};
pub use room::make_room;
