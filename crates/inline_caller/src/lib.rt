//! A function whose calls are replaced, each by its callee's body.
#![tactic(auto)]

mod caller;
mod kinds;
pub mod laws;
mod one_call;
mod prepared;
mod putting;
mod sizing;

pub use caller::Caller;
pub use kinds::{CallKind, call_kind};
pub use one_call::splice;
pub use prepared::{PreparedCall, prepare};
pub use putting::put_prepared;
pub use sizing::size_with_body;
