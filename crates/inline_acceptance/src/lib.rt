//! A call replaced by the body of its callee leaves an accepted module accepted, and a writable one writable.
#![tactic(auto)]

pub mod laws;
