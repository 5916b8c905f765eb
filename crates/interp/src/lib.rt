//! The words of the reference interpreter: what each instruction does in a run, and what a run finds in a module.
//!
//! Contracts see a run as the definition does (`ir_semantics`, `specs/Step.antt`).
#![tactic(auto)]

mod accesses;
mod blocks;
mod branches;
mod calls;
mod common_ops;
mod held;
mod hosts;
mod invokes;
pub mod laws;
mod lines;
pub mod link;
mod moves;
mod outcome;
mod registers;
mod shows;
mod simple;
mod slots;
mod state;
mod throws;

pub use accesses::{load, store};
pub use branches::{br_table, brif, jump};
pub use calls::{add_numbers, begin};
pub use held::{Held, Register};
pub use hosts::fit_values;
pub use invokes::{invoke, invoke_tail};
pub use lines::{call_callee, give_back, sequence_point, tail_call_callee};
pub use moves::read_all;
pub use outcome::{End, Event, Outcome, Shown};
pub use registers::Registers;
pub use simple::{give_results, pure_imm, pure_op, trapnz, trapz};
pub use slots::{stack_load, stack_store};
pub use state::{Frame, Links, Program, Stop, Target, Wait, World};
