//! The text of a host script, and of a list of numbers.
//!
//! A script is replies joined by commas, each with its writes in brackets behind it, as
//! `return(1, -2)[16: 0, 17: 255], trap int_divz, throw tag3(7, 8)`. `specs/Grammar.antt` has the grammar.
#![tactic(auto)]

mod acts;
mod commas;
pub mod laws;
mod reader;
mod replies;
mod scripts;
mod symbol;
mod symbols;
mod terminal;
mod values;
mod writes;

pub use scripts::{ScriptErr, number_list, script};
