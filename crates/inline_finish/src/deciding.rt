//! Whether a policy takes a body.
ghost use Rattle.std.specs.Prelude.{◌≡◌, ◌≤◌, IfOk};
ghost use Rattle.ir_core.specs.Size.{size_of};
ghost use Rattle.ir_core.specs.Viewed.{line_of};
ghost use Rattle.inline_finish.specs.Building.{policy_of, AreCounts, IsLimited};
ghost use Rattle.inline_finish.specs.Deciding.{IsSite, IsDecided};

use crate::bodies::Policy;
use body_import::Import;
use inline_caller::Caller;
use ir_core::{Func, InstData, Point};
use splice_size::{Counts, least_spliced_size, spliced_size};
use std::alloc::{AllocError, Global};

/// What comes in with a body that is taken, and the size that the caller has then.
#[derive(Drop)]
pub(crate) struct Taken {
    pub import: Import,
    pub size: usize,
}

/// Whether the policy takes a body at a call of the caller, whose size this is. Where the splice is too large whatever
/// declarations come in, that costs the line of the call alone.
pub(crate) fn decide(
    alloc: Global,
    policy: Policy,
    caller: &Caller,
    size: usize,
    at: Point,
    line: &InstData,
    body: &Func,
    counts: Option<Counts>,
) -> Result<Option<Taken>, AllocError>
    requires limited { IsLimited policy }
    requires size { size ≡ size_of caller.now }
    requires site { IsSite caller.now body.now.function at (line_of line.now) }
    requires counts { AreCounts (policy_of policy) body.now.function counts }
    ensures { IfOk result (IsDecided (policy_of policy) caller.now body.now.function at (line_of line.now)) }
{
    let _ = at;
    let counts = match counts {
        Some(counts) => counts,
        None => return Ok(None),
    };
    let slots = body.slots().len();
    if least_spliced_size(size, line, &counts, slots) > policy.caller_size {
        return Ok(None);
    }
    let import = caller.plan(alloc, body)?;
    let size = spliced_size(size, line, &counts, slots, &import);
    if size > policy.caller_size {
        return Ok(None);
    }
    Ok(Some(Taken { import, size }))
}
