//! What a module's own raw module means: its declarations are the module's, and each of its lines means the line, under
//! canonical numbers. The crate has laws alone.
#![tactic(auto)]

pub mod laws;
