//! The canonical numbers of the values and blocks of a module.
#![tactic(auto)]

mod numbers;
mod places;

pub use numbers::{FuncNumbers, Numbers, func_numbers, numbering};
