//! The pass by workers: each one draws tickets of a shared table, finishes the body of each ticket's function by the
//! bodies that others published, and publishes it.
#![tactic(auto)]

mod callees;
mod drawing;
mod finished;
mod gathering;
mod outcome;
mod passing;
mod plan;
mod taking;
mod workers;

pub use finished::Finished;
pub use outcome::Turn;
pub use passing::{finish_with, pass_with};
pub use plan::Plan;
pub use step_counter::Steps;
pub use taking::turn;
pub use workers::drive;
