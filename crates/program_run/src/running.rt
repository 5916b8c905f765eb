//! The run of an accepted module.
ghost use Rattle.std.specs.Prelude.{◌≡◌, IfErr, IfOk};
ghost use Rattle.interp_run.specs.Answers.{IsRunOf, IsRefusal};
ghost use Rattle.program_run.specs.EntryName.{IsRunOfSpelled, IsRefusalOfSpelled};

use crate::entries::find_entry;
use byte_store::Memory;
use host_script::Script;
use interp::Outcome;
use interp_run::{LinkedModule, RunErr, run_module};
use ir_check::Checked;
use ir_core::FuncName;
use std::alloc::{AllocError, Global};

/// The accepted module, ready for several runs: what its names and addresses stand for is found once. `run` of what is
/// handed out answers as `run` below does.
pub fn link<'m>(alloc: Global, checked: &'m Checked) -> Result<LinkedModule<'m>, AllocError>
    ensures { IfOk result (λ linked. linked ≡ checked.now) }
{
    LinkedModule::of_module(alloc, checked.module())
}

/// Runs a function of an accepted module by its name, with numbers for its parameters, for so many steps, or fewer
/// where the run is over before. What a step costs does not depend on the size of the module, and frames take memory
/// of their own, so that a run may be as deep as memory allows. `NoEntry` exactly where no function has the name;
/// `BadArgs` exactly where the numbers are not as many as the parameters, or one is no value of its parameter's type.
/// On a refusal the memory is dropped.
pub fn run<'m>(
    alloc: Global,
    checked: &'m Checked,
    entry: &FuncName,
    args: &[i128],
    script: &'m Script,
    memory: Memory,
    steps: u64,
) -> Result<Outcome, RunErr>
    ensures outcome { IfOk result (IsRunOf checked.now entry.now args.now script.now memory steps) }
    ensures refused { IfErr result (IsRefusal checked.now entry.now args.now) }
{
    run_module(alloc, checked.module(), entry, args, script, memory, steps)
}

/// Runs the function whose name is spelled so in the canonical text, as `%f` or `u0:1`, as `run` does. `NoEntry`
/// exactly where no function's name is spelled so.
pub fn run_spelled<'m>(
    alloc: Global,
    checked: &'m Checked,
    entry: &[u8],
    args: &[i128],
    script: &'m Script,
    memory: Memory,
    steps: u64,
) -> Result<Outcome, RunErr>
    ensures outcome { IfOk result (IsRunOfSpelled checked.now entry.now args.now script.now memory steps) }
    ensures refused { IfErr result (IsRefusalOfSpelled checked.now entry.now args.now) }
{
    let Some(name) = find_entry(checked.module(), entry) else {
        return Err(RunErr::NoEntry);
    };
    run(alloc, checked, name, args, script, memory, steps)
}
