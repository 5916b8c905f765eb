//! A call of any kind replaced by its callee's body.
ghost use Rattle.std.specs.Prelude.{◌≡◌, ◌+◌, OnOk, OnErr};
ghost use Rattle.inline_body.specs.PlainCall.{IsSplice};
ghost use Rattle.inline_caller.specs.Replacing.{CanReplace};

use crate::prepared::prepare;
use crate::putting::put_prepared;
use ir_core::{Func, Point};
use std::alloc::{AllocError, Global};
use std::sync::ledger::Ledger;
use step_counter::Steps;

/// Replaces the call at the place by its callee's body, and counts a step: `prepare`, then `put_prepared`. After
/// `AllocError` the caller is as before, and no step was counted. Time is the size of both, times the logarithm of the
/// number of declarations; for many calls of one function a `Caller` takes less.
pub fn splice<L: Ledger>(
    alloc: Global,
    caller: &mut Func,
    site: Point,
    callee: &Func,
    steps: &mut Steps<L>,
) -> Result<(), AllocError>
    requires { CanReplace caller.old.function callee.now.function site }
    ensures ok { OnOk result (IsSplice caller.old.function callee.now.function site caller.new.function) }
    ensures err { OnErr result (caller.new.function ≡ caller.old.function) }
    ensures counted { OnOk result (steps.new ≡ steps.old + 1) }
    ensures uncounted { OnErr result (steps.new ≡ steps.old) }
{
    let call = prepare(alloc, caller, site, callee)?;
    put_prepared(caller, call, steps);
    Ok(())
}
