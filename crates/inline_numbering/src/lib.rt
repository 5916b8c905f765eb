//! A function under other numbers of values and blocks: the same up to numbering, with the same text and, at sites that
//! correspond, the same splices.
#![tactic(auto)]

pub mod laws;
