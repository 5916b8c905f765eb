//! Accepted modules: the rules as tests, and the first fault of a module.
#![tactic(auto)]

mod calls;
mod checked;
mod checking;
mod counts;
mod early;
mod faults;
mod forms;
mod kinds;
mod late;
pub mod laws;
mod lines;
mod own;
mod row_types;
mod rules;
mod types;
mod typing;

pub use checked::Checked;
pub use checking::{CheckErr, Rejected, check};
pub use faults::Fault;
pub use kinds::CheckKind;
pub use own::keeps_own_rules;
