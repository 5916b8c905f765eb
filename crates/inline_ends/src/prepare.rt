//! A callee's body made ready for a tail call, before the caller is changed.
ghost use Rattle.std.specs.Prelude.{◌≡◌, length, IfOk};
ghost use Rattle.body_import.specs.Imports.{IsImportOf};
ghost use Rattle.inline_ends.specs.TailCall.{CanSpliceTail};
ghost use Rattle.inline_ends.specs.LastBody.{IsLastPrepared};

use crate::copying::copy_blocks;
use crate::numbers::number_blocks;
use body_import::Import;
use inline_body::{Incoming, PreparedBody, site_parts};
use ir_core::{Func, Point};
use std::alloc::{AllocError, Global};

/// A callee's body for a tail call of a caller that has so many blocks, and takes over the import. The caller stays as
/// it is. Time is the callee's size. Only `AllocError` refuses.
pub fn prepare_tail(
    alloc: Global,
    caller: &Func,
    block_count: u32,
    import: Import,
    site: Point,
    callee: &Func,
) -> Result<PreparedBody, AllocError>
    requires counted { block_count ≡ length caller.now.function.blocks }
    requires imported { IsImportOf caller.now.function callee.now.function import }
    requires can { CanSpliceTail caller.now.function callee.now.function site }
    ensures { IfOk result (λ body. IsLastPrepared caller.now.function callee.now.function site import body) }
{
    let _ = caller.values();
    let _ = callee.values();
    let call = caller.inst(site);
    let blocks = number_blocks(alloc, callee, block_count)?;
    let Incoming {
        names,
        sigs,
        callees,
    } = Incoming::of_import(caller, blocks, import);
    let body = copy_blocks(alloc, &names, &call.tags, callee)?;
    drop(names);
    let parts = site_parts(alloc, caller, block_count, call, &[], callee, 0)?;
    Ok(PreparedBody::of_parts(parts, sigs, callees, body))
}
