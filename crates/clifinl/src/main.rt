//! The commands of `clifinl` over the standard streams.
#![tactic(auto)]

mod bodies;
mod command;
mod commands;
#[cfg(test)]
mod failing_source;
mod generating;
#[cfg(test)]
mod held_gate;
mod inlining;
pub mod laws;
mod pieces;
mod reading;
mod report;
mod running;
mod status;
mod summary;
mod testing;
mod words;
mod writing;

use clk_flow::{NoGate, Sink, StdSink, StdSource};
pub use command::command;
use report::{tell, tell_bad_word};
pub use status::{Refusal, Status};
use std::alloc::Global;
use std::env::{self, Env};
use std::io::ErrorKind;
use std::process::ExitCode;
use words::first_bad_word;

/// Tells that memory does not even suffice for the words, and gives the status.
fn give_up<K: Sink>(err: &mut K) -> ExitCode {
    tell(err, Status::NoMemory);
    ExitCode::from(Status::NoMemory.code())
}

/// Tells which word is not UTF-8, and gives the status.
fn refuse_words<E: Env, K: Sink>(env: &E, alloc: Global, err: &mut K) -> ExitCode {
    let Ok(number) = first_bad_word(env, alloc) else {
        return give_up(err);
    };
    tell_bad_word(err, number as u64);
    ExitCode::from(Status::Usage.code())
}

fn main(rt: HostRuntime) -> ExitCode {
    let mut input = StdSource::new(rt.stdin());
    let mut out = StdSink::new(rt.stdout());
    let mut err = StdSink::new(rt.stderr());
    let args = match env::args(&rt) {
        Ok(args) => args,
        Err(fault) if fault.kind() == ErrorKind::InvalidData => {
            return refuse_words(&rt, rt.alloc(), &mut err);
        }
        Err(_) => return give_up(&mut err),
    };
    let Ok(words) = args.collect::<Vec<String>>(rt.alloc()) else {
        return give_up(&mut err);
    };
    let status = command(
        &rt,
        rt.alloc(),
        words.as_slice(),
        &mut input,
        &mut out,
        &mut err,
        &NoGate,
    );
    ExitCode::from(status.code())
}
