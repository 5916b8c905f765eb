//! Name resolution: the module that a raw module means, with the places of its items in the text, or its first fault.
#![tactic(auto)]

mod building;
mod declarations;
mod filling;
mod forms;
mod functions;
mod places;
mod resolving;
mod types;

pub use building::build;
pub use functions::meant_function;
pub use places::Places;
pub use resolving::{meaning, resolve, resolve_func};
