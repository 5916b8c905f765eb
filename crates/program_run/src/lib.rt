//! A run of an accepted module, and the text that tells of it.
//!
//! Contracts see the run as the definition does (`ir_semantics`, `specs/Runs.antt`), and its text as a text in pieces
//! (`specs/RunText.antt`).
#![tactic(auto)]

mod bytes;
mod entries;
mod events;
mod exceptions;
pub mod laws;
mod lists;
mod memory;
mod running;
mod text;

pub use entries::find_entry;
pub use interp::{End, Event, Outcome, Shown};
pub use interp_run::{LinkedModule, RunErr};
pub use running::{link, run, run_spelled};
pub use text::{end_line, event_line, print_run, run_text};
