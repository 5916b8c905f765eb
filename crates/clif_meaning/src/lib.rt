//! Name resolution: the module that a raw module without a fault of names means.
#![tactic(auto)]

pub mod laws;
