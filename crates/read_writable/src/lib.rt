//! What a text is read as has a text: it is writable. The crate has laws alone.
#![tactic(auto)]

pub mod laws;
