//! Accepted modules that are ready for runs.
ghost use Rattle.std.specs.Prelude.{◌≡◌, ◌≢◌, IfOk, IfErr};
ghost use Rattle.ir_semantics.specs.Accepted.{Accepted};
ghost use Rattle.ir_semantics.specs.Machine.{Stuck};
ghost use Rattle.interp.specs.Outcome.{end_of};
ghost use Rattle.interp.specs.State.{stop_of};
ghost use Rattle.interp_run.specs.Answers.{IsRunOf, IsRefusal};

use crate::addresses::{Addresses, find_addresses};
use crate::run::RunErr;
use crate::steps::run_function;
use byte_store::Memory;
use host_script::Script;
use interp::link::link;
use interp::{End, Outcome, Program, Stop, fit_values};
use ir_core::{FuncName, List, Module};
use std::alloc::{AllocError, Global};
use std::marker::Model;

/// An accepted module that is ready for runs: what its names and addresses stand for is found once. Contracts see it
/// as the module.
#[derive(Drop)]
pub struct LinkedModule<'m> {
    program: Program<'m>,
    addresses: Addresses<'m>,
}

impl<'m> Model for LinkedModule<'m> {
    ghost use Rattle.std.specs.Prelude.{List};
    ghost use Rattle.ir_core.specs.Module.{Function};
    ghost use Rattle.interp_run.specs.Ready.{IsReady};

    ghost Value = { List Function };

    ghost view = { λ l. l.program.«module».now };

    ghost invariant = { λ l. IsReady l.program l.addresses };
}

/// How a run is over that is not stuck.
fn end_of_run(stop: Stop) -> End
    requires { stop_of stop ≢ Stuck }
    ensures { end_of result ≡ stop_of stop }
{
    match stop {
        Stop::At(end) => end,
        Stop::Stuck => unreachable!(),
    }
}

impl<'m> LinkedModule<'m> {
    /// Makes an accepted module ready for runs. It costs a sort of its names, and a search for each name and callee
    /// declaration.
    pub fn of_module(alloc: Global, module: &'m Module) -> Result<LinkedModule<'m>, AllocError>
        requires { Accepted «module».now }
        ensures { IfOk result (λ linked. linked ≡ «module».now) }
    {
        let program = link(alloc, module)?;
        let addresses = find_addresses(alloc, module)?;
        Ok(LinkedModule { program, addresses })
    }

    /// The module.
    pub fn module(&self) -> &Module
        ensures { result.now ≡ self.now }
    {
        self.program.module
    }

    /// Runs a function of the module by its name, with numbers for its parameters, for so many steps, or fewer where
    /// the run is over before. What a run costs does not depend on the size of the module, but for the search for the
    /// name, and frames take memory of their own, so that a run may be as deep as memory allows. `NoEntry` exactly
    /// where no function has the name; `BadArgs` exactly where the numbers are not as many as the parameters, or one is
    /// no value of its parameter's type. On a refusal the memory is dropped.
    pub fn run(
        &self,
        alloc: Global,
        entry: &FuncName,
        args: &[i128],
        script: &Script,
        memory: Memory,
        steps: u64,
    ) -> Result<Outcome, RunErr>
        ensures outcome { IfOk result (IsRunOf self.now entry.now args.now script.now memory steps) }
        ensures refused { IfErr result (IsRefusal self.now entry.now args.now) }
    {
        let module = self.program.module;
        // That its functions are whole and have different names, any call on it tells.
        let _count = module.len();
        let Some(at) = module.find(entry) else {
            return Err(RunErr::NoEntry);
        };
        let mut values = Vec::new(alloc);
        let params = module.func(at).sig().params.as_slice();
        if !fit_values(params, args, &mut values)? {
            return Err(RunErr::BadArgs);
        }
        let replies = script.replies.as_slice();
        let done = run_function(
            alloc,
            &self.program,
            &self.addresses,
            at,
            &values,
            replies,
            memory,
            steps,
        )?;
        let world = done.world;
        Ok(Outcome {
            events: List::from_vec(world.events),
            memory: world.memory,
            end: end_of_run(done.stop),
        })
    }
}
