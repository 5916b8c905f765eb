//! What the words of the command line ask for, by the command table.
#![tactic(auto)]

mod command_table;
pub mod laws;
mod options;
mod reading;
mod requests;

pub use reading::{Stopped, read_settings};
pub use requests::{GenSettings, InlineSettings, RunSettings, Settings};
