//! The canonical text of a writable module is read as the module under canonical numbers. The crate has laws alone.
#![tactic(auto)]

pub mod laws;
