//! The finished body of a function, by code: its own text, with the finished bodies of functions in other pieces at its
//! sites, as a policy of sizes allows.
#![tactic(auto)]

mod bodies;
mod deciding;
mod finishing;
mod lines;
mod targets;

pub use bodies::{Bodies, Built, Passed, Policy};
pub use finishing::finish_body;
