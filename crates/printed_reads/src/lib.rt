//! What a text is read as is printed as a text that is read as it again, under canonical numbers, and printed once more
//! as the same text. The crate has laws alone.
#![tactic(auto)]

pub mod laws;
