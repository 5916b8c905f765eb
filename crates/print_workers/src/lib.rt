//! The canonical text of functions, written in parts by several workers.
#![tactic(auto)]

mod cuts;
mod functions;
mod parts;
mod putting;

pub use functions::Functions;
pub use parts::{PrintErr, print_with};
