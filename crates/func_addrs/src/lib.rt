//! The names of a module in order, and the addresses that they have in a run.
//!
//! Contracts see names and addresses as the definition of runs has them (`ir_semantics`, `specs/Names.antt`).
#![tactic(auto)]

mod addresses;
mod mentions;
mod order;

pub use addresses::FuncAddrs;
pub use mentions::Mention;
pub use order::compare_names;
