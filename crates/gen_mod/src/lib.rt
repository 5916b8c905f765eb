//! Modules made from a number: functions that call earlier ones, for measurements and for trying the whole way.
//!
//! `specs/Generated.antt` says which module a number gives, and `specs/Shapes.antt` the four shapes of its functions.
#![tactic(auto)]

mod draws;
mod generated;
pub mod laws;
mod lines;
mod names;
mod shapes;

pub use generated::generate;
