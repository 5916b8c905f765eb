//! The size that a function would have with a call replaced by the body of its callee, before anything is changed.
#![tactic(auto)]

mod counts;
pub mod laws;
mod sizes;
mod spliced;

pub use counts::{Counts, count_within};
pub use spliced::{least_spliced_size, spliced_size};
