//! The meaning of modules: runs, acceptance, renumbering and splices, as definitions over the lists that `ir_core`'s
//! types are seen as.
#![tactic(auto)]

pub mod laws;
