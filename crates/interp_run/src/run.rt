//! The run of an accepted module.
ghost use Rattle.std.specs.Prelude.{◌≡◌, IfOk, IfErr};
ghost use Rattle.ir_semantics.specs.Accepted.{Accepted};
ghost use Rattle.interp_run.specs.Answers.{IsRunOf, IsRefusal};
ghost use Rattle.interp_run.specs.declared.run.RunErr.TheVariants.{NoMemory};

use crate::linked::LinkedModule;
use byte_store::Memory;
use host_script::Script;
use interp::Outcome;
use ir_core::{FuncName, Module};
use std::alloc::{AllocError, Global};
use std::error::Error;
use std::fmt;

/// Why a run does not begin, or is given up.
#[derive(Clone, Copy, Debug, PartialEq, Eq)]
pub enum RunErr {
    /// No function has the name.
    NoEntry,
    /// There are not as many numbers as parameters, or one is no value of its parameter's type.
    BadArgs,
    /// Memory ran out.
    NoMemory,
}

impl fmt::Display for RunErr {
    fn fmt<W: fmt::Write>(&self, f: &mut fmt::Formatter<W>) -> fmt::Result {
        match self {
            RunErr::NoEntry => write!(f, "no function has the entry's name"),
            RunErr::BadArgs => write!(f, "the arguments do not fit the entry's parameters"),
            RunErr::NoMemory => write!(f, "out of memory"),
        }
    }
}

impl Error for RunErr {}

impl From<AllocError> for RunErr {
    ghost from_gives = { λ _ e. e ≡ NoMemory };

    fn from(_: AllocError) -> RunErr {
        RunErr::NoMemory
    }
}

/// Runs a function of an accepted module by its name, with numbers for its parameters, for so many steps, or fewer
/// where the run is over before. What a step costs does not depend on the size of the module, and frames take memory
/// of their own, so that a run may be as deep as memory allows. On a refusal the memory is dropped.
pub fn run_module<'m>(
    alloc: Global,
    module: &'m Module,
    entry: &FuncName,
    args: &[i128],
    script: &'m Script,
    memory: Memory,
    steps: u64,
) -> Result<Outcome, RunErr>
    requires { Accepted «module».now }
    ensures outcome { IfOk result (IsRunOf «module».now entry.now args.now script.now memory steps) }
    ensures refused { IfErr result (IsRefusal «module».now entry.now args.now) }
{
    let linked = LinkedModule::of_module(alloc, module)?;
    linked.run(alloc, entry, args, script, memory, steps)
}
