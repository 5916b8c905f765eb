//! The shared table of finished bodies: each worker draws tickets, publishes one body a ticket, and reads those of
//! others.
//!
//! Between any two steps of any threads the table shows a state of the machine of `board_core`. Its rule is
//! `specs/Rule.antt`, what a seat notes is `specs/Plays.antt`, and the law `table_facts` says the rule in plain words.
#![tactic(auto)]

mod board;
mod calls;
mod ends;
mod job;
pub mod laws;
mod plays;
mod steps;
mod view;
mod words;

pub use board::{Board, Seat};
pub use job::Job;
pub use view::{Cell, Stage, View};
