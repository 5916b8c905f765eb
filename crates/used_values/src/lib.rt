//! Whether the values that an instruction uses are available: by the numbers of values nearby, else by the tree of
//! dominators.
#![tactic(auto)]

mod nearby;
mod uses;

pub use nearby::shows_available;
pub use uses::uses_available;
