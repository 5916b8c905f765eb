//! The finished body of a function.
ghost use Rattle.std.specs.Prelude.{◌≡◌, ◌+◌, ◌<◌, ◌≤◌, IfOk, IfSome, length, slice_get};
ghost use Rattle.call_graph.specs.Orders.{IsOrderOf};
ghost use Rattle.inline_finish.specs.Bodies.{HasCallees};
ghost use Rattle.inline_finish.specs.Building.{policy_of, IsLimited, IsBuilt};

use crate::bodies::{Bodies, Built, Policy};
use crate::lines::{Progress, finish_blocks};
use crate::targets::targets;
use call_graph::Order;
use inline_caller::Caller;
use ir_check::Checked;
use ir_core::{Block, Point};
use splice_size::count_within;
use std::alloc::{AllocError, Global};
use std::sync::ledger::Ledger;
use step_counter::Steps;

/// The finished body of a function of an accepted module, up to the numbers of values and blocks, with the number of
/// its inlined sites and what counts of it. `bodies` has the finished bodies of what the function calls in other
/// pieces. A step is counted for the body and one for each inlined site. Only `AllocError` refuses; steps may have been
/// counted then.
pub fn finish_body<B: Bodies, L: Ledger>(
    alloc: Global,
    module: &Checked,
    order: &Order,
    func: usize,
    bodies: &B,
    policy: Policy,
    steps: &mut Steps<L>,
) -> Result<Built, AllocError>
    requires order { IsOrderOf «module».now order.now }
    requires there { func < length «module».now }
    requires functions { B.functions bodies.now ≡ «module».now }
    requires policy { B.policy bodies.now ≡ policy_of policy }
    requires has { IfSome (slice_get «module».now func) (λ f. HasCallees «module».now f (B.has bodies.now)) }
    requires limited { IsLimited policy }
    ensures built { IfOk result
        (λ built. IfSome (slice_get «module».now func) (λ f. IsBuilt (policy_of policy) «module».now f built)) }
    ensures steps { IfOk result (λ built. steps.new ≡ steps.old + (1 + built.inlined)) }
    ensures counted { steps.old ≤ steps.new }
{
    let functions = module.module();
    let own = functions.func(func);
    let size = own.size();
    // No memory has a function of so many parts.
    if size == usize::MAX {
        return Err(AllocError);
    }
    let likely = bodies.likely_callee();
    let targets = targets(alloc, functions, likely, order.piece.as_slice(), func, own)?;
    let mut progress = Progress {
        caller: Caller::new(alloc, own)?,
        size,
        at: Point {
            block: Block::new(0),
            index: 0,
        },
        inlined: 0,
    };
    finish_blocks(
        alloc,
        own,
        targets.as_slice(),
        bodies,
        policy,
        &mut progress,
        steps,
    )?;
    steps.tick();
    let inlined = progress.inlined;
    let func = progress.caller.into_func();
    let counts = count_within(&func, policy.callee_size);
    Ok(Built {
        func,
        inlined,
        counts,
    })
}
