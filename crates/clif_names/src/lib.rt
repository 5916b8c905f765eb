//! The names of a raw module: the words that it uses, its numbers, and the first fault of these.
#![tactic(auto)]

mod first;
mod function;
pub mod laws;
mod least;
mod limits;
mod repeated;
mod sizes;
mod typing;
mod uses;

pub use first::{MOST_FUNCTIONS, NamesFault, among_functions, first_fault};
pub use function::FunctionNames;
pub use least::LeastSpots;
pub use limits::{Limit, Limited};
pub use sizes::function_size;
pub use typing::gives_type;
pub use uses::Uses;
