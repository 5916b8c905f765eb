//! A splice within the limit of sizes has numbers for all its parts.
#![tactic(auto)]

pub mod laws;
