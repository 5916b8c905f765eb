//! Exception tables: which handler takes an exception's tag, and the table of a call that is inlined.
#![tactic(auto)]

mod table;

pub use table::{Entry, Table, joined};
