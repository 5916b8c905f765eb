//! A prepared body put in the place of its call.
ghost use Rattle.std.specs.Prelude.{◌≡◌, ◌+◌, length};
ghost use Rattle.ir_core.specs.declared.places.Point.{Point};
ghost use Rattle.ir_core.specs.Module.{Function};
ghost use Rattle.inline_body.specs.PlainCall.{IsSplice};
ghost use Rattle.inline_caller.specs.Prepared.{blocks_added, CanPut, HasRoomFor, IsPreparedFor};

use crate::prepared::{PlacedBody, PreparedCall};
use inline_body::put_within;
use inline_ends::put_last;
use ir_core::Func;
use std::sync::ledger::Ledger;
use step_counter::Steps;

/// Puts a prepared body in the place of its call, and counts a step: the caller is then the splice. No memory is taken.
/// Time is the size of the body, and of the lines behind the call in its block.
pub fn put_prepared<L: Ledger>(caller: &mut Func, call: PreparedCall, steps: &mut Steps<L>)
    requires room { HasRoomFor call caller.old.room }
    requires ready { CanPut caller.old.function call }
    ensures spliced { (g : Function) (at : Point) → IsPreparedFor caller.old.function g at call
        → IsSplice caller.old.function g at caller.new.function }
    ensures blocks { (g : Function) (at : Point) → IsPreparedFor caller.old.function g at call
        → length caller.new.function.blocks ≡ length caller.old.function.blocks + blocks_added call.body }
    ensures counted { steps.new ≡ steps.old + 1 }
{
    steps.tick();
    let PreparedCall { site, body } = call;
    match body {
        PlacedBody::Within(body) => drop(put_within(caller, site, body)),
        PlacedBody::Last(body) => drop(put_last(caller, site, body)),
    }
}
