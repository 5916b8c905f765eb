//! The canonical text of the finished bodies of an accepted text: it reads as them under canonical numbers and as
//! nothing else, it is accepted, and its runs have the outcomes of the accepted text's. The crate has laws alone.
#![tactic(auto)]

pub mod laws;
