//! A callee's body made ready for a plain call, before the caller is changed.
ghost use Rattle.std.specs.Prelude.{◌≡◌, ℕ, ◌+◌, ◌-◌, ◌<◌, ◌^◌, length, IfOk};
ghost use Rattle.body_import.specs.Imports.{IsImportOf};
ghost use Rattle.inline_body.specs.WithBody.{lines_in};
ghost use Rattle.inline_body.specs.Prepared.{room_of};
ghost use Rattle.inline_body.specs.PlainCall.{CanSplice, IsPrepared};

use crate::blocks::{BlockLines, inline_blocks};
use crate::incoming::Incoming;
use crate::parts::site_parts;
use crate::prepared::PreparedBody;
use crate::results::number_results;
use crate::tables::number_blocks;
use body_import::Import;
use ir_core::{Block, Func, Point, Room};
use std::alloc::{AllocError, Global};

/// How many lines the blocks have.
fn count_lines(blocks: &[BlockLines]) -> usize
    requires { length (lines_in blocks.now) < 2 ^ 32 }
    ensures { result ≡ length (lines_in blocks.now) }
{
    let mut count = 0;
    for block in blocks {
        count += block.lines.as_slice().len();
    }
    count
}

/// The room that a prepared body takes in its caller.
pub fn body_room(body: &PreparedBody) -> Room
    requires blocks { length body.now.block_params + 2 < 2 ^ 32 }
    requires lines { length (lines_in body.now.block_lines) + 1 < 2 ^ 32 }
    ensures { result ≡ room_of body.now }
{
    Room {
        slots: body.slots.as_slice().len(),
        sigs: body.sigs.as_slice().len(),
        callees: body.callees.as_slice().len(),
        values: body.types.as_slice().len(),
        blocks: body.block_params.as_slice().len() + 2,
        insts: count_lines(body.block_lines.as_slice()) + 1,
    }
}

/// A callee's body for a plain call of a caller that has so many blocks, and takes over the import. The caller stays as
/// it is. Time is the callee's size, and the number of its tail calls times that of the site's results. Only
/// `AllocError` refuses.
pub fn prepare_body(
    alloc: Global,
    caller: &Func,
    block_count: u32,
    import: Import,
    site: Point,
    callee: &Func,
) -> Result<PreparedBody, AllocError>
    requires counted { block_count ≡ length caller.now.function.blocks }
    requires imported { IsImportOf caller.now.function callee.now.function import }
    requires can { CanSplice caller.now.function callee.now.function site }
    ensures { IfOk result (λ body. IsPrepared caller.now.function callee.now.function site import body) }
{
    let _ = caller.values();
    let _ = callee.values();
    let call = caller.inst(site);
    let results = call.results.as_slice();
    let count = results.len() as u32;
    let first_result = (caller.values() + callee.values()) as u32;
    let new_results = number_results(alloc, callee, first_result, count)?;
    let blocks = number_blocks(alloc, callee, block_count)?;
    let Incoming {
        names,
        sigs,
        callees,
    } = Incoming::of_import(caller, blocks, import);
    let body = inline_blocks(
        alloc,
        &names,
        &call.tags,
        Block::new(block_count + 1),
        new_results.starts.as_slice(),
        count,
        callee,
    )?;
    let tail_calls = new_results.tail_calls;
    drop(names);
    drop(new_results);
    let parts = site_parts(
        alloc,
        caller,
        block_count,
        call,
        results,
        callee,
        tail_calls,
    )?;
    Ok(PreparedBody::of_parts(parts, sigs, callees, body))
}
