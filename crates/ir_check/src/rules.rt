//! The rules of acceptance at one instruction, each a test.
ghost use Rattle.std.specs.Prelude.{◌≡◌, ◌<◌, ◌≤◌, ℕ, ℤ, length, not, nat_eq, slice_get, is_some, Some};
ghost use Rattle.std.specs.List.{list_all};
ghost use Rattle.ir_core.specs.Module.{Function};
ghost use Rattle.ir_core.specs.Lookup.{width_of};
ghost use Rattle.ir_core.specs.Sound.{IsSound, LineInRange, counts_of};
ghost use Rattle.ir_core.specs.Uses.{targets};
ghost use Rattle.ir_core.specs.Viewed.{line_of, instruction_of};
ghost use Rattle.ir_semantics.specs.Available.{terminates};
ghost use Rattle.ir_semantics.specs.Splice.{first_number};
ghost use Rattle.ir_semantics.specs.Values.{bytes_in, slot_place};
ghost use Rattle.ir_check.specs.Twins.{declared, ends_by, leaves, instruction_tags, instruction_convention};
ghost use Rattle.ir_check.specs.Twins.{instruction_signature, instruction_slot};

use crate::calls::{callee_sig, callee_sig_ref, is_tail, named_sig};
use avail_flow::{ends_block, target_at};
use ir_core::{Block, Callee, Func, Inst, InstData, Module, Slot, Ty};
use sig_numbers::{FuncSigs, ModuleSigs};

/// NoTerminator: an instruction ends its block exactly where it is the last.
pub fn ends_rightly(inst: &Inst, is_last: bool) -> bool
    ensures { result ≡ ends_by (terminates (instruction_of inst.now)) is_last }
{
    ends_block(inst) == is_last
}

/// EntryTarget: no target is the first block.
pub fn leaves_entry(first: Block, inst: &Inst) -> bool
    ensures { result ≡ list_all (leaves first) (targets (instruction_of inst.now)) }
{
    let mut i = 0;
    while let Some(target) = target_at(inst, i) {
        if target.block.number() == first.number() {
            return false;
        }
        i += 1;
    }
    true
}

/// Convention: at a tail call the function's and the callee's conventions are `tail`.
pub fn keeps_convention(func: &Func, added: &InstData) -> bool
    requires sound { IsSound func.now.function }
    requires line { LineInRange (counts_of func.now.function) (line_of added.now) }
    ensures { result ≡ instruction_convention func.now.function (instruction_of added.now.inst) }
{
    match &added.inst {
        Inst::ReturnCall { callee, .. } => {
            is_tail(func.sig().conv) && is_tail(callee_sig(func, *callee).conv)
        }
        Inst::ReturnCallIndirect { sig, .. } => {
            is_tail(func.sig().conv) && is_tail(named_sig(func, *sig).conv)
        }
        _ => true,
    }
}

/// SignatureMismatch: the signature of a `try_call` is its callee's.
pub fn states_signature(func: &Func, sigs: &FuncSigs<'_>, added: &InstData) -> bool
    requires sound { IsSound func.now.function }
    requires same { sigs.now ≡ func.now.function }
    requires line { LineInRange (counts_of func.now.function) (line_of added.now) }
    ensures { result ≡ instruction_signature func.now.function (instruction_of added.now.inst) }
{
    match &added.inst {
        Inst::TryCall { callee, sig, .. } => { sigs.are_same(*sig, callee_sig_ref(func, *callee)) }
        Inst::TryCallIndirect { .. } => true,
        _ => true,
    }
}

/// The number of bytes of a type.
fn count_bytes(ty: Ty) -> u32
    ensures { result ≡ bytes_in (width_of ty) }
{
    match ty {
        Ty::I8 => 1,
        Ty::I16 => 2,
        Ty::I32 => 4,
        Ty::I64 => 8,
        Ty::I128 => 16,
    }
}

/// Whether so many bytes from an offset on lie in the slot.
fn is_in_slot(func: &Func, slot: Slot, offset: i32, bytes: u32) -> bool
    requires there { slot < length func.now.function.slots }
    requires few { bytes ≤ 16 }
    ensures { result ≡ is_some (slot_place func.now.function slot offset bytes) }
{
    let size = func.slots()[slot.number() as usize].size;
    offset >= 0 && offset as u64 + bytes as u64 <= size as u64
}

/// SlotRange: the bytes of a `stack_load` or `stack_store` lie in the slot.
pub fn stays_in_slot(func: &Func, added: &InstData) -> bool
    requires sound { IsSound func.now.function }
    requires line { LineInRange (counts_of func.now.function) (line_of added.now) }
    ensures { result ≡ instruction_slot func.now.function (instruction_of added.now.inst) }
{
    match &added.inst {
        Inst::StackLoad { ty, slot, offset } => is_in_slot(func, *slot, *offset, count_bytes(*ty)),
        Inst::StackStore {
            value,
            slot,
            offset,
        } => { is_in_slot(func, *slot, *offset, count_bytes(func.ty(*value))) }
        _ => true,
    }
}

/// TagPlace: tags stand on calls and `sequence_point` only, and no slot tag on a tail call.
pub fn places_tags(added: &InstData) -> bool
    ensures { result ≡ instruction_tags added.now.tags (instruction_of added.now.inst) }
{
    match &added.inst {
        Inst::SequencePoint
        | Inst::Call { .. }
        | Inst::CallIndirect { .. }
        | Inst::TryCall { .. }
        | Inst::TryCallIndirect { .. } => true,
        Inst::ReturnCall { .. } | Inst::ReturnCallIndirect { .. } => !added.tags.has_slot(),
        _ => added.tags.list().is_empty(),
    }
}

/// SignatureMismatch: a declaration of a function of the module states its signature. `number` is the place of the
/// function that has the declaration.
pub fn declares_signature(
    module: &Module,
    sigs: &ModuleSigs<'_>,
    func: &Func,
    number: usize,
    callee: &Callee,
) -> bool
    requires same { sigs.now ≡ «module».now }
    requires at { slice_get «module».now number ≡ Some func.now.function }
    requires there { callee.now.sig < length func.now.function.sigs }
    ensures { result ≡ declared «module».now func.now.function callee.now }
{
    match module.find(&callee.name) {
        Some(i) => sigs.is_own(number, callee.sig, i),
        None => true,
    }
}
