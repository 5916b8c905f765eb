//! A callee's body prepared for a call of any kind.
ghost use Rattle.std.specs.Prelude.{◌≡◌, ◌+◌, ◌<◌, ◌^◌, length, IfOk, OnOk};
ghost use Rattle.ir_core.specs.Edits.{HasRoom};
ghost use Rattle.body_import.specs.Imports.{IsImportOf};
ghost use Rattle.inline_body.specs.Prepared.{room_of};
ghost use Rattle.inline_body.specs.WithBody.{lines_in};
ghost use Rattle.inline_caller.specs.Prepared.{prepared_body, blocks_added as spec_blocks_added, IsPreparedFor};
ghost use Rattle.inline_caller.specs.Prepared.{HasRoomFor};
ghost use Rattle.inline_caller.specs.Replacing.{CanReplace};

use crate::kinds::{CallKind, call_kind};
use body_import::{Import, index_declarations, plan_import};
use inline_body::{PreparedBody, body_room, prepare_body};
use inline_ends::{prepare_tail, prepare_try};
use ir_core::{Func, Point, Room};
use std::alloc::{AllocError, Global};

/// A body by how it stands at its call: within the call's block, which goes on behind the body in a block of its own,
/// or at the block's end.
#[derive(Drop)]
pub(crate) enum PlacedBody {
    Within(PreparedBody),
    Last(PreparedBody),
}

/// A callee's body prepared for a call, with the call's place.
#[derive(Drop)]
pub struct PreparedCall {
    pub(crate) site: Point,
    pub(crate) body: PlacedBody,
}

/// The room that a prepared body takes in its caller.
fn call_room(call: &PreparedCall) -> Room
    requires blocks { length (prepared_body call.now.body).block_params + 2 < 2 ^ 32 }
    requires lines { length (lines_in (prepared_body call.now.body).block_lines) + 1 < 2 ^ 32 }
    ensures { result ≡ room_of (prepared_body call.now.body) }
{
    match &call.body {
        PlacedBody::Within(body) => body_room(body),
        PlacedBody::Last(body) => body_room(body),
    }
}

/// How many blocks more the caller has with the body.
pub(crate) fn blocks_added(call: &PreparedCall) -> u32
    requires { spec_blocks_added call.now.body < 2 ^ 32 }
    ensures { result ≡ spec_blocks_added call.now.body }
{
    match &call.body {
        PlacedBody::Within(body) => body.block_params.as_slice().len() as u32 + 2,
        PlacedBody::Last(body) => body.block_params.as_slice().len() as u32 + 1,
    }
}

/// The callee's body for the call at the place. The caller stays as it is.
fn place_body(
    alloc: Global,
    caller: &Func,
    block_count: u32,
    import: Import,
    site: Point,
    callee: &Func,
) -> Result<PreparedCall, AllocError>
    requires counted { block_count ≡ length caller.now.function.blocks }
    requires imported { IsImportOf caller.now.function callee.now.function import }
    requires can { CanReplace caller.now.function callee.now.function site }
    ensures { IfOk result (IsPreparedFor caller.now.function callee.now.function site) }
{
    let block = site.block;
    let index = site.index;
    let kind = call_kind(&caller.inst(site).inst);
    let place = Point { block, index };
    let body = match kind {
        CallKind::Plain => {
            let body = prepare_body(alloc, caller, block_count, import, place, callee)?;
            PlacedBody::Within(body)
        }
        CallKind::Tail => {
            let body = prepare_tail(alloc, caller, block_count, import, place, callee)?;
            PlacedBody::Last(body)
        }
        CallKind::Try => {
            let body = prepare_try(alloc, caller, block_count, import, place, callee)?;
            PlacedBody::Last(body)
        }
    };
    Ok(PreparedCall {
        site: Point { block, index },
        body,
    })
}

/// The call, once its caller has the room.
fn with_room(caller: &mut Func, call: PreparedCall, room: Room) -> Result<PreparedCall, AllocError>
    ensures call { IfOk result (λ p. p ≡ call) }
    ensures room { OnOk result (HasRoom room caller.new.room) }
    ensures same { caller.new.function ≡ caller.old.function }
{
    match caller.reserve(room) {
        Ok(()) => Ok(call),
        Err(error) => {
            drop(call);
            Err(error)
        }
    }
}

/// What `prepare` does, for a caller of so many blocks that takes over the import.
pub(crate) fn prepare_planned(
    alloc: Global,
    caller: &mut Func,
    block_count: u32,
    import: Import,
    site: Point,
    callee: &Func,
) -> Result<PreparedCall, AllocError>
    requires counted { block_count ≡ length caller.old.function.blocks }
    requires imported { IsImportOf caller.old.function callee.now.function import }
    requires can { CanReplace caller.old.function callee.now.function site }
    ensures prepared { IfOk result (IsPreparedFor caller.old.function callee.now.function site) }
    ensures room { IfOk result (λ p. HasRoomFor p caller.new.room) }
    ensures same { caller.new.function ≡ caller.old.function }
{
    let call = place_body(alloc, caller, block_count, import, site, callee)?;
    let room = call_room(&call);
    with_room(caller, call, room)
}

/// Prepares the callee's body for the call at the place: all that `put_prepared` takes memory for is taken, the room in
/// the caller too, and the caller is as before. Only `AllocError` refuses. Time is the size of both, times the
/// logarithm of the number of declarations.
pub fn prepare(
    alloc: Global,
    caller: &mut Func,
    site: Point,
    callee: &Func,
) -> Result<PreparedCall, AllocError>
    requires { CanReplace caller.old.function callee.now.function site }
    ensures prepared { IfOk result (IsPreparedFor caller.old.function callee.now.function site) }
    ensures room { IfOk result (λ p. HasRoomFor p caller.new.room) }
    ensures same { caller.new.function ≡ caller.old.function }
{
    let _ = caller.values();
    let block_count = caller.block_count() as u32;
    let import = {
        let index = index_declarations(alloc, caller)?;
        plan_import(alloc, &index, caller, callee)?
    };
    prepare_planned(alloc, caller, block_count, import, site, callee)
}
