//! Calls that can be replaced.
ghost use Rattle.std.specs.Prelude.{◌≡◌, ◌≤◌, ◌<◌, [], length, IfOk, IfSome, IsTrue, Some, slice_get};
ghost use Rattle.ir_core.specs.Edits.{IsPoint};
ghost use Rattle.ir_core.specs.Size.{size_of};
ghost use Rattle.ir_core.specs.WellFormed.{WellFormed};
ghost use Rattle.ir_semantics.specs.Accepted.{Accepted, RulesHold};
ghost use Rattle.inline_caller.specs.Replacing.{CanReplace};

use inline_caller::size_with_body;
use ir_core::{Func, GREATEST_SIZE, Module, Point};
use splice_bounds::laws::{plain_call_has_numbers, tail_call_has_numbers, try_call_has_numbers};
use std::alloc::{AllocError, Global};

/// The function at a place of an accepted module.
pub(crate) fn function(from: &Module, index: usize) -> &Func
    requires accepted { Accepted from.now }
    requires there { index < length from.now }
    ensures at { slice_get from.now index ≡ Some result.now.function }
    ensures whole { WellFormed result.now.function }
    ensures accepted { RulesHold [] result.now.function }
{
    from.func(index)
}

/// The first line of the first block. `None` where there is none.
pub(crate) fn first_line(func: &Func) -> Option<Point>
    ensures { IfSome result (IsPoint func.now.function) }
{
    let block = func.blocks().next()?;
    if func.inst_slice(block).is_empty() {
        return None;
    }
    Some(Point { block, index: 0 })
}

/// Whether a function is within the limit, and has as few signatures and callees.
fn is_small(func: &Func) -> bool
    ensures size { IsTrue result → size_of func.now.function ≤ 262144 }
    ensures sigs { IsTrue result → length func.now.function.sigs ≤ 262144 }
    ensures callees { IsTrue result → length func.now.function.callees ≤ 262144 }
{
    func.size() <= GREATEST_SIZE
        && func.sigs().len() <= GREATEST_SIZE
        && func.callees().len() <= GREATEST_SIZE
}

/// Whether the line at the place is a direct call that the callee's body can replace within the limit. Only
/// `AllocError` refuses.
pub(crate) fn can_replace(
    alloc: Global,
    caller: &Func,
    site: Point,
    callee: &Func,
) -> Result<bool, AllocError>
    requires whole { WellFormed caller.now.function × WellFormed callee.now.function }
    requires accepted { RulesHold [] caller.now.function × RulesHold [] callee.now.function }
    requires there { IsPoint caller.now.function site }
    ensures { IfOk result (λ can. IsTrue can → CanReplace caller.now.function callee.now.function site) }
{
    plain_call_has_numbers();
    tail_call_has_numbers();
    try_call_has_numbers();
    let Point { block, index } = site;
    let Some(_) = caller.inst(Point { block, index }).inst.callee() else {
        return Ok(false);
    };
    if !is_small(caller) {
        return Ok(false);
    }
    if !is_small(callee) {
        return Ok(false);
    }
    let size = size_with_body(alloc, caller, Point { block, index }, callee)?;
    Ok(size <= GREATEST_SIZE)
}
