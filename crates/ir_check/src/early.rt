//! The first fault by another rule than availability.
ghost use Rattle.std.specs.Prelude.{◌≡◌, ◌<◌, Some, length, nat_eq, slice_get};
ghost use Rattle.ir_core.specs.Lists.{In};
ghost use Rattle.ir_core.specs.Lookup.{block_numbers};
ghost use Rattle.ir_core.specs.Sound.{IsSound};
ghost use Rattle.ir_semantics.specs.Splice.{first_number};
ghost use Rattle.ir_check.specs.Faults.{first_rules, tried};
ghost use Rattle.ir_check.specs.Found.{Finds, FindsIn, FindsAny, block_at, block_keeps, callee_keeps, if_first};
ghost use Rattle.ir_check.specs.Found.{line_checks};
ghost use Rattle.ir_check.specs.Found.{block_checks, checks_of_blocks, checks_of_callees, checks_of_function};
ghost use Rattle.ir_check.specs.Kinds.{rule_named, failing_rule};
ghost use Rattle.ir_check.specs.Twins.{filled, entry_counts, entry_types};

use crate::faults::Fault;
use crate::kinds::CheckKind;
use crate::lines::find_line_fault;
use crate::rules::declares_signature;
use crate::types::have_param_types;
use ir_core::{Block, Callee, Func, Item, Module, Point};
use sig_numbers::{FuncSigs, ModuleSigs};

/// Whether a block has an instruction.
fn is_filled(func: &Func, block: Block) -> bool
    requires { In block (block_numbers func.now.function.blocks) }
    ensures { result ≡ filled (block_at func.now.function block) }
{
    !func.inst_slice(block).is_empty()
}

/// Whether a block is the first, which this is.
fn is_entry(first: Block, block: Block) -> bool
    ensures { result ≡ nat_eq block first }
{
    block.number() == first.number()
}

/// Whether a block has as many parameters as the function.
fn has_entry_counts(func: &Func, block: Block) -> bool
    requires { In block (block_numbers func.now.function.blocks) }
    ensures { result ≡ entry_counts func.now.function (block_at func.now.function block) }
{
    func.params(block).len() == func.sig().params.as_slice().len()
}

/// Whether the parameters of a block have the types of the function's.
fn has_entry_types(func: &Func, block: Block) -> bool
    requires sound { IsSound func.now.function }
    requires there { In block (block_numbers func.now.function.blocks) }
    ensures { result ≡ entry_types func.now.function (block_at func.now.function block) }
{
    have_param_types(func, func.params(block), func.sig().params.as_slice())
}

/// CountMismatch: the first block has as many parameters as the function.
fn keeps_entry_counts(func: &Func, first: Block, block: Block) -> bool
    requires first { first ≡ first_number func.now.function.blocks }
    requires there { In block (block_numbers func.now.function.blocks) }
    ensures { result ≡ if_first func.now.function block entry_counts }
{
    if !is_entry(first, block) {
        return true;
    }
    has_entry_counts(func, block)
}

/// TypeMismatch: the parameters of the first block have the types of the function's.
fn keeps_entry_types(func: &Func, first: Block, block: Block) -> bool
    requires sound { IsSound func.now.function }
    requires first { first ≡ first_number func.now.function.blocks }
    requires there { In block (block_numbers func.now.function.blocks) }
    ensures { result ≡ if_first func.now.function block entry_types }
{
    if !is_entry(first, block) {
        return true;
    }
    has_entry_types(func, block)
}

/// The first rule but availability that a block itself does not keep. `first` is the function's first block.
fn find_block_fault(func: &Func, first: Block, block: Block) -> Option<CheckKind>
    requires sound { IsSound func.now.function }
    requires first { first ≡ first_number func.now.function.blocks }
    requires there { In block (block_numbers func.now.function.blocks) }
    ensures { rule_named result ≡ failing_rule (block_keeps func.now.function block) first_rules }
{
    if !is_filled(func, block) {
        return Some(CheckKind::NoTerminator);
    }
    if !keeps_entry_counts(func, first, block) {
        return Some(CheckKind::CountMismatch);
    }
    if !keeps_entry_types(func, first, block) {
        return Some(CheckKind::TypeMismatch);
    }
    None
}

/// The first fault but availability among the instructions of a block. `number` is the function's place.
fn find_fault_in_lines(
    func: &Func,
    sigs: &FuncSigs<'_>,
    number: usize,
    first: Block,
    block: Block,
) -> Option<Fault>
    requires sound { IsSound func.now.function }
    requires same { sigs.now ≡ func.now.function }
    requires first { first ≡ first_number func.now.function.blocks }
    requires there { In block (block_numbers func.now.function.blocks) }
    ensures { FindsIn func.now.function (line_checks first_rules number func.now.function block) result }
{
    let insts = func.inst_slice(block);
    for (i, added) in insts.iter().enumerate() {
        let index = i as u32;
        if let Some(kind) = find_line_fault(func, sigs, first, added, i + 1 == insts.len()) {
            return Some(Fault {
                kind,
                func: number,
                item: Item::Inst(Point { block, index }),
            });
        }
    }
    None
}

/// The first fault but availability at a block and its instructions.
fn find_fault_in_block(
    func: &Func,
    sigs: &FuncSigs<'_>,
    number: usize,
    first: Block,
    block: Block,
) -> Option<Fault>
    requires sound { IsSound func.now.function }
    requires same { sigs.now ≡ func.now.function }
    requires first { first ≡ first_number func.now.function.blocks }
    requires there { In block (block_numbers func.now.function.blocks) }
    ensures { FindsIn func.now.function (block_checks first_rules number func.now.function block) result }
{
    if let Some(kind) = find_block_fault(func, first, block) {
        return Some(Fault {
            kind,
            func: number,
            item: Item::Block(block.number()),
        });
    }
    find_fault_in_lines(func, sigs, number, first, block)
}

/// The first fault but availability among the blocks of a function. `first` is its first block.
pub(crate) fn find_fault_in_blocks(
    func: &Func,
    sigs: &FuncSigs<'_>,
    number: usize,
    first: Block,
) -> Option<Fault>
    requires same { sigs.now ≡ func.now.function }
    requires first { first ≡ first_number func.now.function.blocks }
    ensures { FindsIn func.now.function (checks_of_blocks first_rules number func.now.function) result }
{
    for block in func.blocks() {
        if let Some(fault) = find_fault_in_block(func, sigs, number, first, block) {
            return Some(fault);
        }
    }
    None
}

/// The first rule but availability that a callee declaration does not keep.
fn find_callee_fault(
    module: &Module,
    sigs: &ModuleSigs<'_>,
    func: &Func,
    number: usize,
    callee: &Callee,
) -> Option<CheckKind>
    requires same { sigs.now ≡ «module».now }
    requires at { slice_get «module».now number ≡ Some func.now.function }
    requires there { callee.now.sig < length func.now.function.sigs }
    ensures { rule_named result ≡ failing_rule (callee_keeps «module».now func.now.function callee.now) first_rules }
{
    if declares_signature(module, sigs, func, number, callee) {
        None
    } else {
        Some(CheckKind::SignatureMismatch)
    }
}

/// The first fault but availability among the callee declarations of a function.
fn find_fault_in_callees(
    module: &Module,
    sigs: &ModuleSigs<'_>,
    func: &Func,
    number: usize,
) -> Option<Fault>
    requires sound { IsSound func.now.function }
    requires same { sigs.now ≡ «module».now }
    requires at { slice_get «module».now number ≡ Some func.now.function }
    ensures { Finds «module».now func.now.function (checks_of_callees first_rules number func.now.function) result }
{
    let declared = func.callees();
    for (i, callee) in declared.iter().enumerate() {
        let index = i as u32;
        if let Some(kind) = find_callee_fault(module, sigs, func, number, callee) {
            return Some(Fault {
                kind,
                func: number,
                item: Item::Callee(index),
            });
        }
    }
    None
}

/// The first block of a function, if it has one.
pub(crate) fn find_first(func: &Func) -> Block
    ensures number { result ≡ first_number func.now.function.blocks }
    ensures sound { IsSound func.now.function }
{
    match func.blocks().next() {
        Some(block) => block,
        None => Block::new(0),
    }
}

/// The first fault but availability in a function, which stands at this place of the module. Takes time linear in the
/// function, but for the logarithms of `check`.
pub(crate) fn find_fault_in_func(
    module: &Module,
    sigs: &ModuleSigs<'_>,
    func: &Func,
    number: usize,
) -> Option<Fault>
    requires same { sigs.now ≡ «module».now }
    requires at { slice_get «module».now number ≡ Some func.now.function }
    ensures { Finds «module».now func.now.function (checks_of_function first_rules number func.now.function) result }
{
    let first = find_first(func);
    if let Some(fault) = find_fault_in_callees(module, sigs, func, number) {
        return Some(fault);
    }
    find_fault_in_blocks(func, &sigs.func(number), number, first)
}

/// The first fault of a module by another rule than availability.
pub(crate) fn find_early_fault(module: &Module, sigs: &ModuleSigs<'_>) -> Option<Fault>
    requires { sigs.now ≡ «module».now }
    ensures { FindsAny «module».now (tried first_rules 0 «module».now) result }
{
    for i in 0..module.len() {
        if let Some(fault) = find_fault_in_func(module, sigs, module.func(i), i) {
            return Some(fault);
        }
    }
    None
}
