//! The bodies out of the cells, and a module of them.
ghost use Rattle.std.specs.Prelude.{◌≡◌, length, map, sum, IfOk, OnOk};
ghost use Rattle.std.specs.Arc.{arc_value};
ghost use Rattle.ir_core.specs.Lists.{Each};
ghost use Rattle.ir_core.specs.Sound.{IsSound};
ghost use Rattle.ir_core.specs.WellFormed.{IsModule};
ghost use Rattle.ir_semantics.specs.Accepted.{Accepted};
ghost use Rattle.ir_semantics.specs.Canon.{SameUpToNumbering};
ghost use Rattle.ir_semantics.specs.Same.{Same};
ghost use Rattle.ir_text.specs.Writable.{Writable};
ghost use Rattle.inline_pass.specs.Finished as defined;
ghost use Rattle.inline_pass.specs.Inlined.{inlined, all_inlined};
ghost use Rattle.inline_finish.specs.Building.{policy_of, IsLimited};
ghost use Rattle.worker_driver.specs.Gathered.{AreGathered, functions_in, inlined_in};
ghost use Rattle.worker_driver.specs.Plans.{IsPlanOf};
ghost use Rattle.worker_driver.specs.Turns.{AllAnswered, AllBodies};

use crate::plan::Plan;
use inline_finish::{Built, Passed, Policy};
use inline_pass::laws::{
    renumbered_finished_keep, renumbered_finished_stay_accepted, renumbered_finished_stay_writable,
};
use ir_check::Checked;
use ir_core::{Boxed, Func, Module};
use publish_table::Cell;
use std::alloc::{AllocError, Global};
use std::mem;
use std::sync::Arc;

/// The bodies of the cells, which stand in the order of tickets, in the order of the functions. No body is copied or
/// moved. The answer is `AllocError` also where a cell is refused.
pub(crate) fn gather_bodies(
    alloc: Global,
    module: &Module,
    plan: &Plan,
    policy: Policy,
    cells: Vec<Cell>,
) -> Result<Vec<Arc<Built>>, AllocError>
    requires plan { IsPlanOf «module».now plan.now }
    requires cells { AllAnswered policy «module».now cells.items }
    ensures none_refused { OnOk result (AllBodies cells.items) }
    ensures gathered { IfOk result (λ bodies. AreGathered policy «module».now bodies.items) }
{
    let _ = policy;
    let mut cells = cells;
    let mut bodies = Vec::with_capacity(alloc, module.len())?;
    for i in 0..module.len() {
        let ticket = plan.tickets[i];
        let Cell::Body(built) = mem::replace(&mut cells[ticket], Cell::Refused) else {
            return Err(AllocError);
        };
        bodies.push(built)?;
    }
    Ok(bodies)
}

/// The function of a body, which is copied where others have it too.
fn func_of(built: Arc<Built>) -> Result<Func, AllocError>
    ensures same { IfOk result (λ func. func.function ≡ (arc_value built).func.function) }
    ensures sound { IfOk result (λ func. IsSound func.function) }
{
    match Arc::try_unwrap(built) {
        Ok(built) => {
            let _count = built.func.values();
            Ok(built.func)
        }
        Err(shared) => {
            let func = shared.func.copy()?;
            let _count = func.values();
            Ok(func)
        }
    }
}

/// The functions of the bodies, and how many sites were inlined into them, in all and into each. Only `AllocError`
/// refuses.
fn take_functions(
    alloc: Global,
    bodies: Vec<Arc<Built>>,
) -> Result<(Vec<Boxed<Func>>, u128, Vec<u64>), AllocError>
    ensures functions { IfOk result (λ r. map (λ func. func.function) r.0.items ≡ functions_in bodies.items) }
    ensures sound { IfOk result (λ r. Each IsSound (map (λ func. func.function) r.0.items)) }
    ensures inlined { IfOk result (λ r. r.1 ≡ sum (map inlined_in bodies.items)) }
    ensures by_function { IfOk result (λ r. r.2.items ≡ map inlined_in bodies.items) }
{
    let mut funcs = Vec::with_capacity(alloc, bodies.len())?;
    let mut inlined = 0u128;
    let mut inlined_by_function = Vec::with_capacity(alloc, bodies.len())?;
    for built in bodies {
        let count = built.inlined;
        inlined += count as u128;
        inlined_by_function.push(count)?;
        let func = func_of(built)?;
        let boxed = Boxed::new(alloc, func)?;
        funcs.push(boxed)?;
    }
    Ok((funcs, inlined, inlined_by_function))
}

/// The accepted module of the bodies, with the outcomes of the given one, and how many sites were inlined into them.
/// Only `AllocError` refuses.
pub(crate) fn make_passed(
    alloc: Global,
    module: &Checked,
    policy: Policy,
    bodies: Vec<Arc<Built>>,
) -> Result<Passed, AllocError>
    requires bodies { AreGathered policy «module».now bodies.items }
    requires limited { IsLimited policy }
    ensures finished { IfOk result
        (λ passed. SameUpToNumbering (defined.passed (policy_of policy) «module».now) passed.«module») }
    ensures outcomes { IfOk result (λ passed. Same «module».now passed.«module») }
    ensures accepted { IfOk result (λ passed. IsModule passed.«module» × Accepted passed.«module») }
    ensures writable { IfOk result (λ passed. Writable «module».now → Writable passed.«module») }
    ensures inlined { IfOk result (λ passed. passed.inlined ≡ all_inlined (policy_of policy) «module».now) }
    ensures by_function { IfOk result (λ passed.
        passed.inlined_by_function.items ≡ map (inlined (policy_of policy) «module».now) «module».now) }
{
    let _ = policy;
    // That its functions are accepted, any call on it tells.
    let _functions = module.module();
    renumbered_finished_stay_accepted();
    renumbered_finished_keep();
    renumbered_finished_stay_writable();
    let (funcs, inlined, inlined_by_function) = take_functions(alloc, bodies)?;
    let made = Module::of_functions(alloc, funcs)?;
    let Some(passed) = made else {
        unreachable!();
    };
    Ok(Passed {
        module: Checked::of_accepted(passed),
        inlined,
        inlined_by_function,
    })
}
