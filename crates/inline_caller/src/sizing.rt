//! The size of a caller with a call replaced, before anything is changed.
ghost use Rattle.std.specs.Prelude.{◌≡◌, ◌+◌, ◌-◌, ◌<◌, ◌^◌, [], length, IfOk};
ghost use Rattle.ir_core.specs.Edits.{IsPoint};
ghost use Rattle.ir_core.specs.Size.{size_of, capped};
ghost use Rattle.ir_semantics.specs.Accepted.{RulesHold};
ghost use Rattle.ir_semantics.specs.Splice.{Naming, splice_with};

use body_import::{index_declarations, plan_import};
use ir_core::{Func, Point};
use splice_size::{count_within, spliced_size};
use std::alloc::{AllocError, Global};

/// The size that the caller would have with the call at the place replaced by the callee's body. The greatest number of
/// the type where it is greater. Only `AllocError` refuses. Time is the size of both, times the logarithm of the number
/// of declarations.
pub fn size_with_body(
    alloc: Global,
    caller: &Func,
    site: Point,
    callee: &Func,
) -> Result<usize, AllocError>
    requires there { IsPoint caller.now.function site }
    requires accepted { RulesHold [] caller.now.function × RulesHold [] callee.now.function }
    requires few_sigs { length caller.now.function.sigs + length callee.now.function.sigs < 2 ^ 32 - 1 }
    requires few_callees { length caller.now.function.callees + length callee.now.function.callees < 2 ^ 32 - 1 }
    ensures { IfOk result (λ size. (n : Naming)
        → size ≡ capped (size_of (splice_with n caller.now.function site.block site.index callee.now.function))) }
{
    let _ = callee.values();
    // No memory holds a function whose size no number of the type tells.
    let size = caller.size();
    if size == usize::MAX {
        return Err(AllocError);
    }
    let counts = match count_within(callee, usize::MAX) {
        Some(counts) => counts,
        None => return Err(AllocError),
    };
    let index = index_declarations(alloc, caller)?;
    let import = plan_import(alloc, &index, caller, callee)?;
    let line = caller.inst(site);
    let slots = callee.slots().len();
    Ok(spliced_size(size, line, &counts, slots, &import))
}
