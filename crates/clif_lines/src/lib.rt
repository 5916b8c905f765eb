//! Lines of the text under the numbers that their words mean: instructions, targets, tables, tags, signatures.
#![tactic(auto)]

mod accesses;
mod branches;
mod calls;
mod instructions;
mod lines;
mod narrowing;
mod operations;
mod signatures;
mod targets;
mod words;

pub use lines::line;
pub use narrowing::{alignment, entity_number, slot_size, word_number};
pub use operations::{access, operation};
pub use signatures::{func_name, signature};
pub use words::WordNumbers;
