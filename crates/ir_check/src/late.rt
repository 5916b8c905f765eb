//! The first use of a value that is not available.
ghost use Rattle.std.specs.Prelude.{◌≡◌, IfOk};
ghost use Rattle.ir_core.specs.Lists.{In};
ghost use Rattle.ir_core.specs.Lookup.{block_numbers};
ghost use Rattle.ir_core.specs.Sound.{IsSound, IsWhole};
ghost use Rattle.ir_check.specs.Faults.{last_rules, tried};
ghost use Rattle.ir_check.specs.Found.{FindsIn, FindsAny, line_checks, checks_of_blocks, checks_of_function};

use crate::faults::Fault;
use crate::kinds::CheckKind;
use avail_flow::{Avail, flow};
use ir_core::{Block, Func, Item, Module, Point};
use std::alloc::{AllocError, Global};
use used_values::{shows_available, uses_available};

/// The first instruction of a block that uses a value that is not available. `number` is the function's place.
fn find_use_in_lines(avail: &Avail<'_>, func: &Func, number: usize, block: Block) -> Option<Fault>
    requires sound { IsSound func.now.function }
    requires same { avail.now ≡ func.now.function }
    requires there { In block (block_numbers func.now.function.blocks) }
    ensures { FindsIn func.now.function (line_checks last_rules number func.now.function block) result }
{
    let insts = func.inst_slice(block);
    for (i, added) in insts.iter().enumerate() {
        let index = i as u32;
        if !uses_available(avail, block, index, &added.inst) {
            return Some(Fault {
                kind: CheckKind::NotAvailable,
                func: number,
                item: Item::Inst(Point { block, index }),
            });
        }
    }
    None
}

/// The first instruction of a function that uses a value that is not available.
fn find_use_in_blocks(avail: &Avail<'_>, func: &Func, number: usize) -> Option<Fault>
    requires { avail.now ≡ func.now.function }
    ensures { FindsIn func.now.function (checks_of_blocks last_rules number func.now.function) result }
{
    for block in func.blocks() {
        if let Some(fault) = find_use_in_lines(avail, func, number, block) {
            return Some(fault);
        }
    }
    None
}

/// The first instruction of a function that uses a value that is not available. `number` is the function's place. The
/// paths are read only where the numbers of the values do not show the answer. Only `AllocError` refuses.
pub(crate) fn find_use_in_func(
    alloc: Global,
    func: &Func,
    number: usize,
) -> Result<Option<Fault>, AllocError>
    requires { IsWhole func.now.function }
    ensures { IfOk result (FindsIn func.now.function (checks_of_function last_rules number func.now.function)) }
{
    if shows_available(func) {
        return Ok(None);
    }
    let avail = flow(alloc, func)?;
    Ok(find_use_in_blocks(&avail, func, number))
}

/// The first use of a value that is not available in a module. Only `AllocError` refuses.
pub(crate) fn find_late_fault(alloc: Global, module: &Module) -> Result<Option<Fault>, AllocError>
    ensures { IfOk result (λ found. FindsAny «module».now (tried last_rules 0 «module».now) found) }
{
    for i in 0..module.len() {
        let found = find_use_in_func(alloc, module.func(i), i)?;
        if let Some(fault) = found {
            return Ok(Some(fault));
        }
    }
    Ok(None)
}
