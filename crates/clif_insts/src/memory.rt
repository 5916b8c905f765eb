//! Loads, stores and addresses.

ghost use Rattle.std.specs.Prelude.{◌≢◌, ◌<◌, length, IfOk, IfErr};
ghost use Rattle.token_reader.specs.declared.stop.Stop.TheVariants.{NoMemory};
ghost use Rattle.token_reader.specs.Reading.{Gives, same};
ghost use Rattle.clif_insts.specs.Forms as spec;

use crate::flags::read_flags;
use crate::raw::{RawInst, RawOperands};
use clif_words::Class;
use ir_core::List;
use std::alloc::Global;
use token_reader::{Reader, Stop, read_i64_suffix, read_offset, read_opt_suffix, read_suffix};

/// `op.T flags p+off`
#[tactic(auto, unfolding(crate::specs::Forms::load_at))]
pub(crate) fn read_load(alloc: Global, reader: &mut Reader<'_>) -> Result<RawInst, Stop>
    ensures is { Gives same reader.new result (spec.load_at reader.old) }
    ensures shorter { IfOk result (λ _. length reader.new < length reader.old) }
{
    let opcode = reader.take_opcode(Class::Load)?;
    let suffix = read_suffix(reader)?;
    let flags = read_flags(alloc, reader)?;
    let address = reader.take(Class::Value)?;
    let offset = read_offset(alloc, reader)?;
    Ok(RawInst {
        opcode,
        suffix: Some(suffix),
        operands: RawOperands::Load {
            flags: List::from_vec(flags),
            address,
            offset,
        },
    })
}

/// `op[.i64] flags p+off`
#[tactic(auto, unfolding(crate::specs::Forms::load_wide_at))]
pub(crate) fn read_load_wide(alloc: Global, reader: &mut Reader<'_>) -> Result<RawInst, Stop>
    ensures is { Gives same reader.new result (spec.load_wide_at reader.old) }
    ensures shorter { IfOk result (λ _. length reader.new < length reader.old) }
{
    let opcode = reader.take_opcode(Class::LoadWide)?;
    let suffix = read_opt_suffix(reader)?;
    let flags = read_flags(alloc, reader)?;
    let address = reader.take(Class::Value)?;
    let offset = read_offset(alloc, reader)?;
    Ok(RawInst {
        opcode,
        suffix,
        operands: RawOperands::Load {
            flags: List::from_vec(flags),
            address,
            offset,
        },
    })
}

/// `op[.T] flags x, p+off`
#[tactic(auto, unfolding(crate::specs::Forms::store_at))]
pub(crate) fn read_store(alloc: Global, reader: &mut Reader<'_>) -> Result<RawInst, Stop>
    ensures is { Gives same reader.new result (spec.store_at reader.old) }
    ensures shorter { IfOk result (λ _. length reader.new < length reader.old) }
{
    let opcode = reader.take_opcode(Class::Store)?;
    let suffix = read_opt_suffix(reader)?;
    let flags = read_flags(alloc, reader)?;
    let value = reader.take(Class::Value)?;
    reader.take(Class::Comma)?;
    let address = reader.take(Class::Value)?;
    let offset = read_offset(alloc, reader)?;
    Ok(RawInst {
        opcode,
        suffix,
        operands: RawOperands::Store {
            flags: List::from_vec(flags),
            value,
            address,
            offset,
        },
    })
}

/// `stack_load.T ssN+off`
#[tactic(auto, unfolding(crate::specs::Forms::stack_load_at))]
pub(crate) fn read_stack_load(alloc: Global, reader: &mut Reader<'_>) -> Result<RawInst, Stop>
    ensures is { Gives same reader.new result (spec.stack_load_at reader.old) }
    ensures shorter { IfOk result (λ _. length reader.new < length reader.old) }
{
    let opcode = reader.take_opcode(Class::StackLoad)?;
    let suffix = read_suffix(reader)?;
    let slot = reader.take(Class::Slot)?;
    let offset = read_offset(alloc, reader)?;
    Ok(RawInst {
        opcode,
        suffix: Some(suffix),
        operands: RawOperands::StackLoad { slot, offset },
    })
}

/// `stack_store[.T] x, ssN+off`
#[tactic(auto, unfolding(crate::specs::Forms::stack_store_at))]
pub(crate) fn read_stack_store(alloc: Global, reader: &mut Reader<'_>) -> Result<RawInst, Stop>
    ensures is { Gives same reader.new result (spec.stack_store_at reader.old) }
    ensures shorter { IfOk result (λ _. length reader.new < length reader.old) }
{
    let opcode = reader.take_opcode(Class::StackStore)?;
    let suffix = read_opt_suffix(reader)?;
    let value = reader.take(Class::Value)?;
    reader.take(Class::Comma)?;
    let slot = reader.take(Class::Slot)?;
    let offset = read_offset(alloc, reader)?;
    Ok(RawInst {
        opcode,
        suffix,
        operands: RawOperands::StackStore {
            value,
            slot,
            offset,
        },
    })
}

/// `func_addr.i64 fnN`
#[tactic(auto, unfolding(crate::specs::Forms::func_addr_at))]
pub(crate) fn read_func_addr(reader: &mut Reader<'_>) -> Result<RawInst, Stop>
    ensures is { Gives same reader.new result (spec.func_addr_at reader.old) }
    ensures no_memory { IfErr result (λ e. e ≢ NoMemory) }
    ensures shorter { IfOk result (λ _. length reader.new < length reader.old) }
{
    let opcode = reader.take_opcode(Class::FuncAddr)?;
    read_i64_suffix(reader)?;
    let callee = reader.take(Class::Callee)?;
    Ok(RawInst {
        opcode,
        suffix: None,
        operands: RawOperands::FuncAddr(callee),
    })
}
