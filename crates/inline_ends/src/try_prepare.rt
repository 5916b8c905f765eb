//! A callee's body made ready for a `try_call`, before the caller is changed.
ghost use Rattle.std.specs.Prelude.{◌≡◌, ◌++◌, length, IfOk};
ghost use Rattle.ir_core.specs.Viewed.{instruction_of};
ghost use Rattle.ir_semantics.specs.Splice.{Tries, kind_of};
ghost use Rattle.body_import.specs.Imports.{IsImportOf};
ghost use Rattle.inline_ends.specs.TryCallSite.{IsTryCall, CanSpliceTry};
ghost use Rattle.inline_ends.specs.LastBody.{IsLastPrepared};

use crate::try_body::try_blocks;
use crate::try_numbers::number_try_blocks;
use crate::trying::TrySite;
use body_import::Import;
use inline_body::{Incoming, PreparedBody, site_parts};
use ir_core::{Callee, Func, Inst, InstData, Point};
use std::alloc::{AllocError, Global};

/// A `try_call` as a site, where its function has these callee declarations and takes over others.
fn site_of<'a>(call: &'a InstData, own: &'a [Callee], added: &'a [Callee]) -> TrySite<'a>
    requires { IsTryCall (instruction_of call.now.inst) }
    ensures kind { kind_of (instruction_of call.now.inst) ≡ Tries result.normal result.table }
    ensures tags { result.tags ≡ call.now.tags }
    ensures callees { result.callees ≡ own.now ++ added.now }
{
    match &call.inst {
        Inst::TryCall { normal, table, .. } => TrySite {
            tags: &call.tags,
            normal: normal.get(),
            table: table.get(),
            own,
            added,
        },
        Inst::TryCallIndirect { normal, table, .. } => TrySite {
            tags: &call.tags,
            normal: normal.get(),
            table: table.get(),
            own,
            added,
        },
        _ => unreachable!(),
    }
}

/// A callee's body for a `try_call` of a caller that has so many blocks, and takes over the import. The caller stays as
/// it is. Time is the callee's size, and the number of its calls times the size of the site's table and tags. Only
/// `AllocError` refuses.
pub fn prepare_try(
    alloc: Global,
    caller: &Func,
    block_count: u32,
    import: Import,
    site: Point,
    callee: &Func,
) -> Result<PreparedBody, AllocError>
    requires counted { block_count ≡ length caller.now.function.blocks }
    requires imported { IsImportOf caller.now.function callee.now.function import }
    requires can { CanSpliceTry caller.now.function callee.now.function site }
    ensures { IfOk result (λ body. IsLastPrepared caller.now.function callee.now.function site import body) }
{
    let _ = caller.values();
    let _ = callee.values();
    let call = caller.inst(site);
    let blocks = number_try_blocks(alloc, callee, block_count)?;
    let Incoming {
        names,
        sigs,
        callees,
    } = Incoming::of_import(caller, blocks, import);
    let outer = site_of(call, caller.callees(), callees.as_slice());
    let body = try_blocks(alloc, &names, &outer, callee)?;
    drop(names);
    let parts = site_parts(alloc, caller, block_count, call, &[], callee, 0)?;
    Ok(PreparedBody::of_parts(parts, sigs, callees, body))
}
