//! Runs of modules: one instruction after another, by the words of `interp`.
//!
//! Contracts see a run as the definition does (`ir_semantics`, `specs/Runs.antt`).
#![tactic(auto)]

mod act;
mod addresses;
mod calls;
mod linked;
mod run;
mod steps;

pub use interp::{End, Event, Outcome, Shown};
pub use linked::LinkedModule;
pub use run::{RunErr, run_module};
