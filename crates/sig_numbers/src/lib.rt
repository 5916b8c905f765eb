//! The signatures of a module by numbers, so that each is read once, and compared with no other but the one before.
#![tactic(auto)]

mod index;
mod sigs;
mod tables;
mod types;

pub use sigs::{FuncSigs, ModuleSigs, OwnSigs, number_sigs};
