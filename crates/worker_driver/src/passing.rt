//! The whole pass by workers.
ghost use Rattle.std.specs.Prelude.{◌≡◌, ◌+◌, ◌<◌, ◌≤◌, length, map, IfOk, OnOk};
ghost use Rattle.ir_core.specs.WellFormed.{IsModule};
ghost use Rattle.ir_semantics.specs.Accepted.{Accepted};
ghost use Rattle.ir_semantics.specs.Canon.{SameUpToNumbering};
ghost use Rattle.ir_semantics.specs.Same.{Same};
ghost use Rattle.ir_text.specs.Writable.{Writable};
ghost use Rattle.inline_pass.specs.Finished as defined;
ghost use Rattle.inline_pass.specs.Inlined.{inlined, all_inlined};
ghost use Rattle.inline_finish.specs.Building.{policy_of, IsLimited};
ghost use Rattle.worker_driver.specs.Gathered.{AreGathered};

use crate::finished::Finished;
use crate::gathering::{gather_bodies, make_passed};
use crate::plan::Plan;
use crate::workers::drive;
use clk_flow::Gate;
use inline_finish::{Built, Passed, Policy};
use ir_check::Checked;
use publish_table::Board;
use std::alloc::{AllocError, Global};
use std::sync::ledger::Ledger;
use std::sync::{Arc, Wait};
use std::thread::Threads;
use step_counter::Steps;

/// The finished bodies of an accepted module by so many workers, and how many sites were inlined, in all and into each
/// function: the same for each number of workers, and whatever the order in which they run. The module that they make
/// is accepted, has the outcomes of the given one, and is writable where that is. The counter rises by one for each
/// function and one for each inlined site. No more workers start than the module has functions.
///
/// A worker draws up to 63 tickets ahead of the one that it announces at the gate, where there are 128 functions or
/// more for each worker, and works on them in the order in which it drew them. So a gate that holds a worker holds
/// these tickets too, and a gate at which a worker waits for ticket n has to let go on whoever has a ticket before it.
///
/// # Errors
///
/// `AllocError`, where memory fails in any of the workers.
pub fn pass_with<R: Threads + Wait + Sync, G: Gate, L: Ledger>(
    rt: &R,
    alloc: Global,
    module: &Checked,
    policy: Policy,
    workers: usize,
    gate: &G,
    steps: &mut Steps<L>,
) -> Result<Passed, AllocError>
    requires workers { (1 ≤ workers) × (workers ≤ 64) }
    requires limited { IsLimited policy }
    ensures finished { IfOk result
        (λ passed. SameUpToNumbering (defined.passed (policy_of policy) «module».now) passed.«module») }
    ensures outcomes { IfOk result (λ passed. Same «module».now passed.«module») }
    ensures accepted { IfOk result (λ passed. IsModule passed.«module» × Accepted passed.«module») }
    ensures writable { IfOk result (λ passed. Writable «module».now → Writable passed.«module») }
    ensures inlined { IfOk result (λ passed. passed.inlined ≡ all_inlined (policy_of policy) «module».now) }
    ensures by_function { IfOk result (λ passed.
        passed.inlined_by_function.items ≡ map (inlined (policy_of policy) «module».now) «module».now) }
    ensures steps { OnOk result
        (steps.new ≡ steps.old + (length «module».now + all_inlined (policy_of policy) «module».now)) }
{
    let bodies = finish_bodies(rt, alloc, module, policy, workers, gate, steps)?;
    make_passed(alloc, module, policy, bodies)
}

/// The finished bodies alone, as `pass_with` finds them, with as many workers and the same gate. They stay where the
/// workers put them: none is copied or moved, and no module is made of them.
///
/// # Errors
///
/// `AllocError`, where memory fails in any of the workers.
pub fn finish_with<R: Threads + Wait + Sync, G: Gate, L: Ledger>(
    rt: &R,
    alloc: Global,
    module: &Checked,
    policy: Policy,
    workers: usize,
    gate: &G,
    steps: &mut Steps<L>,
) -> Result<Finished, AllocError>
    requires workers { (1 ≤ workers) × (workers ≤ 64) }
    requires limited { IsLimited policy }
    ensures finished { IfOk result
        (λ finished. SameUpToNumbering (defined.passed (policy_of policy) «module».now) finished) }
    ensures steps { OnOk result
        (steps.new ≡ steps.old + (length «module».now + all_inlined (policy_of policy) «module».now)) }
{
    let bodies = finish_bodies(rt, alloc, module, policy, workers, gate, steps)?;
    Ok(Finished::of_bodies(bodies))
}

/// How many workers there is work for: no more than the module has functions.
fn useful_workers(functions: usize, workers: usize) -> usize
    requires { 1 ≤ workers }
    ensures some { (1 ≤ result) × (result ≤ workers) }
    ensures few { 1 ≤ functions → result ≤ functions }
{
    workers.min(functions).max(1)
}

/// All turns of all workers, and the bodies that they published, in the order of the functions. The counter rises as
/// that of `pass_with`.
fn finish_bodies<R: Threads + Wait + Sync, G: Gate, L: Ledger>(
    rt: &R,
    alloc: Global,
    module: &Checked,
    policy: Policy,
    workers: usize,
    gate: &G,
    steps: &mut Steps<L>,
) -> Result<Vec<Arc<Built>>, AllocError>
    requires workers { (1 ≤ workers) × (workers ≤ 64) }
    requires limited { IsLimited policy }
    ensures gathered { IfOk result (λ bodies. AreGathered policy «module».now bodies.items) }
    ensures steps { OnOk result
        (steps.new ≡ steps.old + (length «module».now + all_inlined (policy_of policy) «module».now)) }
{
    let functions = module.module();
    let seated = useful_workers(functions.len(), workers);
    let plan = Plan::new(rt, alloc, functions, seated)?;
    let (board, seats) = Board::new(alloc, functions, policy, seated)?;
    let seats = drive(rt, alloc, module, &plan, policy, &board, seats, gate, steps)?;
    let cells = board.close(seats);
    gather_bodies(alloc, functions, &plan, policy, cells)
}
