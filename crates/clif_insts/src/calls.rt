//! Calls.

ghost use Rattle.std.specs.Prelude.{◌<◌, length, IfOk};
ghost use Rattle.token_reader.specs.Reading.{Gives, same};
ghost use Rattle.clif_insts.specs.Forms as spec;

use crate::arguments::{read_args, read_few_args};
use crate::raw::{RawInst, RawOperands};
use crate::tables::read_boxed_table;
use crate::targets::{TargetRole, read_boxed_target};
use clif_words::Class;
use ir_core::List;
use std::alloc::Global;
use token_reader::{Reader, Stop, read_opt_i64_suffix};

/// `op fnN(v, ..)`
#[tactic(auto, unfolding(crate::specs::Forms::call_at))]
pub(crate) fn read_call(alloc: Global, reader: &mut Reader<'_>) -> Result<RawInst, Stop>
    ensures is { Gives same reader.new result (spec.call_at reader.old) }
    ensures shorter { IfOk result (λ _. length reader.new < length reader.old) }
{
    let opcode = reader.take_opcode(Class::Call)?;
    let callee = reader.take(Class::Callee)?;
    let args = read_few_args(alloc, reader)?;
    Ok(RawInst {
        opcode,
        suffix: None,
        operands: RawOperands::Call { callee, args },
    })
}

/// `try_call fnN(v, ..), sigN, call-to, table`
#[tactic(auto, unfolding(crate::specs::Forms::try_call_at))]
pub(crate) fn read_try_call(alloc: Global, reader: &mut Reader<'_>) -> Result<RawInst, Stop>
    ensures is { Gives same reader.new result (spec.try_call_at reader.old) }
    ensures shorter { IfOk result (λ _. length reader.new < length reader.old) }
{
    let opcode = reader.take_opcode(Class::TryCall)?;
    let callee = reader.take(Class::Callee)?;
    let args = read_args(alloc, reader)?;
    reader.take(Class::Comma)?;
    let sig = reader.take(Class::Sig)?;
    reader.take(Class::Comma)?;
    let normal = read_boxed_target(alloc, reader, TargetRole::Normal)?;
    reader.take(Class::Comma)?;
    let table = read_boxed_table(alloc, reader)?;
    Ok(RawInst {
        opcode,
        suffix: None,
        operands: RawOperands::TryCall {
            callee,
            args: List::from_vec(args),
            sig,
            normal,
            table,
        },
    })
}

/// `op[.i64] sigN, v(v, ..)`
#[tactic(auto, unfolding(crate::specs::Forms::call_indirect_at))]
pub(crate) fn read_call_indirect(alloc: Global, reader: &mut Reader<'_>) -> Result<RawInst, Stop>
    ensures is { Gives same reader.new result (spec.call_indirect_at reader.old) }
    ensures shorter { IfOk result (λ _. length reader.new < length reader.old) }
{
    let opcode = reader.take_opcode(Class::CallIndirect)?;
    read_opt_i64_suffix(reader)?;
    let sig = reader.take(Class::Sig)?;
    reader.take(Class::Comma)?;
    let address = reader.take(Class::Value)?;
    let args = read_few_args(alloc, reader)?;
    Ok(RawInst {
        opcode,
        suffix: None,
        operands: RawOperands::CallIndirect { sig, address, args },
    })
}

/// `try_call_indirect[.i64] v(v, ..), sigN, call-to, table`
#[tactic(auto, unfolding(crate::specs::Forms::try_call_indirect_at))]
pub(crate) fn read_try_call_indirect(
    alloc: Global,
    reader: &mut Reader<'_>,
) -> Result<RawInst, Stop>
    ensures is { Gives same reader.new result (spec.try_call_indirect_at reader.old) }
    ensures shorter { IfOk result (λ _. length reader.new < length reader.old) }
{
    let opcode = reader.take_opcode(Class::TryCallIndirect)?;
    read_opt_i64_suffix(reader)?;
    let address = reader.take(Class::Value)?;
    let args = read_args(alloc, reader)?;
    reader.take(Class::Comma)?;
    let sig = reader.take(Class::Sig)?;
    reader.take(Class::Comma)?;
    let normal = read_boxed_target(alloc, reader, TargetRole::Normal)?;
    reader.take(Class::Comma)?;
    let table = read_boxed_table(alloc, reader)?;
    Ok(RawInst {
        opcode,
        suffix: None,
        operands: RawOperands::TryCallIndirect {
            address,
            args: List::from_vec(args),
            sig,
            normal,
            table,
        },
    })
}
