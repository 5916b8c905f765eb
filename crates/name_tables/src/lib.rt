//! The words that a raw function defines, kind by kind in tables, and what its alias lines stand for.
#![tactic(auto)]

pub mod aliases;
mod firsts;
mod links;
mod names;
mod operands;
mod spots;
mod tables;
mod words;

pub use firsts::{Def, Firsts};
pub use links::{End, Ends, Link};
pub use names::Names;
pub use spots::{earlier_of, earlier_spot};
pub use tables::Tables;
pub use words::Words;
