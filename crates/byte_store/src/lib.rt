//! What a run keeps in bytes: the slots of a frame, of which bytes may be unwritten, and the memory. Beside them
//! `Cells`, which keeps values by their numbers as slots keep bytes.
//!
//! Contracts see slots and memory as the definitions of runs do (`ir_semantics`, `specs/Values.antt`).
#![tactic(auto)]

mod cells;
mod errors;
mod memory;
mod slots;

pub use cells::Cells;
pub use errors::{OutOfRange, ShowErr, Unwritten};
pub use memory::Memory;
pub use slots::Slots;
