//! A call replaced by the body of its callee keeps what every run does.
#![tactic(auto)]

pub mod laws;
