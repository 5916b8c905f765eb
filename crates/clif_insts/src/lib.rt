//! The reader of one instruction.
#![tactic(auto)]

mod arguments;
mod calls;
mod codes;
mod control;
mod flags;
mod forms;
mod insts;
pub mod laws;
mod memory;
mod opening;
mod operations;
mod raw;
mod tables;
mod targets;

pub use arguments::{read_few_more_values, read_more_values, read_values};
pub use forms::read_inst;
pub use insts::{SyntaxErr, inst};
pub use opening::Opening;
pub use raw::{RawArg, RawEntry, RawFlag, RawInst, RawOperands, RawTarget, RawTrap};
pub use targets::TargetRole;
