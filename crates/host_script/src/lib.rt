//! What the host functions of a run answer: a script of replies, one for each host call.
//!
//! Contracts see replies as the definition of runs has them (`ir_semantics`, `specs/Machine.antt`).
#![tactic(auto)]

mod script;

pub use script::{Act, Reply, Script};
