//! The pass on one thread: the finished bodies of a module's functions, one after the other, from callees to callers.
#![tactic(auto)]

mod passing;
mod places;

pub use passing::pass;
