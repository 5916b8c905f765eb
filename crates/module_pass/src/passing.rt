//! The pass over a module.
ghost use Rattle.std.specs.Prelude.{◌≡◌, ◌+◌, IfOk, OnOk, length, map};
ghost use Rattle.call_graph.specs.Orders.{IsOrderOf};
ghost use Rattle.ir_core.specs.Sound.{IsSound};
ghost use Rattle.ir_core.specs.WellFormed.{DifferentNames, IsModule};
ghost use Rattle.ir_semantics.specs.Accepted.{Accepted};
ghost use Rattle.ir_semantics.specs.Canon.{SameUpToNumbering};
ghost use Rattle.ir_semantics.specs.Same.{Same};
ghost use Rattle.ir_text.specs.Writable.{Writable};
ghost use Rattle.inline_pass.specs.Finished as defined;
ghost use Rattle.inline_pass.specs.Inlined.{inlined, all_inlined};
ghost use Rattle.inline_finish.specs.Building.{policy_of, IsLimited};
ghost use Rattle.module_pass.specs.Places.{AreBuilt, AllFilled};

use crate::places::Places;
use call_graph::{Order, graph, pieces};
use inline_finish::{Built, Passed, Policy, finish_body};
use inline_pass::laws::{
    renumbered_finished_keep, renumbered_finished_stay_accepted, renumbered_finished_stay_writable,
};
use ir_check::Checked;
use ir_core::{Func, Module};
use std::alloc::{AllocError, Global};
use std::mem;
use std::sync::ledger::Ledger;
use step_counter::Steps;

/// The finished bodies of an accepted module, in its order, and how many sites were inlined, in all and into each
/// function: one function after the other, from callees to callers. The module that they make is accepted, has the
/// outcomes of the given one, and is writable where that is. The counter rises by one for each function and one for
/// each inlined site. Only `AllocError` refuses.
pub fn pass<L: Ledger>(
    alloc: Global,
    module: &Checked,
    policy: Policy,
    steps: &mut Steps<L>,
) -> Result<Passed, AllocError>
    requires limited { IsLimited policy }
    ensures finished { IfOk result
        (λ passed. SameUpToNumbering (defined.passed (policy_of policy) «module».now) passed.«module») }
    ensures outcomes { IfOk result (λ passed. Same «module».now passed.«module») }
    ensures accepted { IfOk result (λ passed. IsModule passed.«module» × Accepted passed.«module») }
    ensures writable { IfOk result (λ passed. Writable «module».now → Writable passed.«module») }
    ensures inlined { IfOk result (λ passed. passed.inlined ≡ all_inlined (policy_of policy) «module».now) }
    ensures by_function { IfOk result (λ passed.
        passed.inlined_by_function.items ≡ map (inlined (policy_of policy) «module».now) «module».now) }
    ensures steps { OnOk result
        (steps.new ≡ steps.old + (length «module».now + all_inlined (policy_of policy) «module».now)) }
{
    let functions = module.module();
    let order = order_of(alloc, functions)?;
    let built = bodies(alloc, module, &order, policy, steps)?;
    let (passed, inlined, inlined_by_function) = gather(alloc, functions, policy, built)?;
    renumbered_finished_stay_accepted();
    renumbered_finished_keep();
    renumbered_finished_stay_writable();
    Ok(Passed {
        module: Checked::of_accepted(passed),
        inlined,
        inlined_by_function,
    })
}

/// The order from callees to callers.
fn order_of(alloc: Global, module: &Module) -> Result<Order, AllocError>
    ensures { IfOk result (λ order. DifferentNames «module».now × IsOrderOf «module».now order) }
{
    let _count = module.len();
    let graph = graph(alloc, module)?;
    pieces(alloc, &graph)
}

/// The finished body of each function, in the module's order.
fn bodies<L: Ledger>(
    alloc: Global,
    module: &Checked,
    order: &Order,
    policy: Policy,
    steps: &mut Steps<L>,
) -> Result<Vec<Option<Built>>, AllocError>
    requires names { DifferentNames «module».now }
    requires order { IsOrderOf «module».now order.now }
    requires limited { IsLimited policy }
    ensures built { IfOk result (λ built. AreBuilt policy «module».now built.items) }
    ensures all { IfOk result (λ built. AllFilled built.items) }
    ensures steps { OnOk result
        (steps.new ≡ steps.old + (length «module».now + all_inlined (policy_of policy) «module».now)) }
{
    let mut places = Places::new(alloc, module.module(), policy)?;
    for func in order.list.as_slice() {
        let built = finish_body(alloc, module, order, *func, &places, policy, steps)?;
        places.put(*func, built);
    }
    Ok(places.into_built())
}

/// The function of a body.
fn func_of(built: Built) -> Func
    ensures same { result.function ≡ built.func.function }
    ensures sound { IsSound result.function }
{
    let _count = built.func.values();
    built.func
}

/// The module of the bodies, and how many sites were inlined into them, in all and into each.
fn gather(
    alloc: Global,
    module: &Module,
    policy: Policy,
    built: Vec<Option<Built>>,
) -> Result<(Module, u128, Vec<u64>), AllocError>
    requires built { AreBuilt policy «module».now built.items }
    requires all { AllFilled built.items }
    ensures finished { IfOk result
        (λ r. SameUpToNumbering (defined.passed (policy_of policy) «module».now) r.0) }
    ensures inlined { IfOk result (λ r. r.1 ≡ all_inlined (policy_of policy) «module».now) }
    ensures by_function { IfOk result
        (λ r. r.2.items ≡ map (inlined (policy_of policy) «module».now) «module».now) }
{
    let _ = policy;
    let mut places = built;
    let mut passed = Module::new(alloc);
    let mut inlined = 0u128;
    let mut inlined_by_function = Vec::with_capacity(alloc, module.len())?;
    for i in 0..module.len() {
        let Some(built) = mem::replace(&mut places[i], None) else {
            unreachable!();
        };
        let count = built.inlined;
        inlined += count as u128;
        passed.push(func_of(built))?;
        inlined_by_function.push(count)?;
    }
    Ok((passed, inlined, inlined_by_function))
}
