//! Instructions without operands, branches, returns and traps.

ghost use Rattle.std.specs.Prelude.{◌≢◌, ◌<◌, length, IfOk, IfErr};
ghost use Rattle.token_reader.specs.declared.stop.Stop.TheVariants.{NoMemory};
ghost use Rattle.token_reader.specs.Reading.{Gives, same};
ghost use Rattle.clif_insts.specs.Forms as spec;

use crate::codes::read_trap_code;
use crate::raw::{RawInst, RawOperands};
use crate::targets::{TargetRole, read_boxed_target, read_target, read_target_list};
use clif_words::Class;
use ir_core::{Few, List};
use std::alloc::Global;
use token_reader::{Reader, Stop, read_opt_suffix};

/// No operands
#[tactic(auto, unfolding(crate::specs::Forms::nullary_at))]
pub(crate) fn read_nullary(reader: &mut Reader<'_>) -> Result<RawInst, Stop>
    ensures is { Gives same reader.new result (spec.nullary_at reader.old) }
    ensures no_memory { IfErr result (λ e. e ≢ NoMemory) }
    ensures shorter { IfOk result (λ _. length reader.new < length reader.old) }
{
    let opcode = reader.take_opcode(Class::Nullary)?;
    Ok(RawInst {
        opcode,
        suffix: None,
        operands: RawOperands::Nullary,
    })
}

/// `jump call-to`
#[tactic(auto, unfolding(crate::specs::Forms::jump_at))]
pub(crate) fn read_jump(alloc: Global, reader: &mut Reader<'_>) -> Result<RawInst, Stop>
    ensures is { Gives same reader.new result (spec.jump_at reader.old) }
    ensures shorter { IfOk result (λ _. length reader.new < length reader.old) }
{
    let opcode = reader.take_opcode(Class::Jump)?;
    let target = read_target(alloc, reader, TargetRole::Branch)?;
    Ok(RawInst {
        opcode,
        suffix: None,
        operands: RawOperands::Jump(target),
    })
}

/// `brif[.T] x, call-to, call-to`
#[tactic(auto, unfolding(crate::specs::Forms::brif_at))]
pub(crate) fn read_brif(alloc: Global, reader: &mut Reader<'_>) -> Result<RawInst, Stop>
    ensures is { Gives same reader.new result (spec.brif_at reader.old) }
    ensures shorter { IfOk result (λ _. length reader.new < length reader.old) }
{
    let opcode = reader.take_opcode(Class::Brif)?;
    let suffix = read_opt_suffix(reader)?;
    let cond = reader.take(Class::Value)?;
    reader.take(Class::Comma)?;
    let then_target = read_boxed_target(alloc, reader, TargetRole::Branch)?;
    reader.take(Class::Comma)?;
    let else_target = read_boxed_target(alloc, reader, TargetRole::Branch)?;
    Ok(RawInst {
        opcode,
        suffix,
        operands: RawOperands::Brif {
            cond,
            yes: then_target,
            no: else_target,
        },
    })
}

/// `br_table v, call-to, [call-to, ..]`
#[tactic(auto, unfolding(crate::specs::Forms::br_table_at))]
pub(crate) fn read_br_table(alloc: Global, reader: &mut Reader<'_>) -> Result<RawInst, Stop>
    ensures is { Gives same reader.new result (spec.br_table_at reader.old) }
    ensures shorter { IfOk result (λ _. length reader.new < length reader.old) }
{
    let opcode = reader.take_opcode(Class::BrTable)?;
    let index = reader.take(Class::Value)?;
    reader.take(Class::Comma)?;
    let default = read_boxed_target(alloc, reader, TargetRole::Branch)?;
    reader.take(Class::Comma)?;
    let entries = read_target_list(alloc, reader)?;
    Ok(RawInst {
        opcode,
        suffix: None,
        operands: RawOperands::BrTable {
            index,
            default,
            entries: List::from_vec(entries),
        },
    })
}

/// `return v, ..`
#[tactic(auto, unfolding(crate::specs::Forms::return_inst_at))]
pub(crate) fn read_return(alloc: Global, reader: &mut Reader<'_>) -> Result<RawInst, Stop>
    ensures is { Gives same reader.new result (spec.return_inst_at reader.old) }
    ensures shorter { IfOk result (λ _. length reader.new < length reader.old) }
{
    let opcode = reader.take_opcode(Class::Return)?;
    Ok(RawInst {
        opcode,
        suffix: None,
        operands: RawOperands::Return(Few::from_vec(Vec::new(alloc))),
    })
}

/// `trap code`
#[tactic(auto, unfolding(crate::specs::Forms::trap_inst_at))]
pub(crate) fn read_trap(reader: &mut Reader<'_>) -> Result<RawInst, Stop>
    ensures is { Gives same reader.new result (spec.trap_inst_at reader.old) }
    ensures no_memory { IfErr result (λ e. e ≢ NoMemory) }
    ensures shorter { IfOk result (λ _. length reader.new < length reader.old) }
{
    let opcode = reader.take_opcode(Class::Trap)?;
    let code = read_trap_code(reader)?;
    Ok(RawInst {
        opcode,
        suffix: None,
        operands: RawOperands::Trap(code),
    })
}

/// `op[.T] x, code`
#[tactic(auto, unfolding(crate::specs::Forms::trap_if_at))]
pub(crate) fn read_trap_if(reader: &mut Reader<'_>) -> Result<RawInst, Stop>
    ensures is { Gives same reader.new result (spec.trap_if_at reader.old) }
    ensures no_memory { IfErr result (λ e. e ≢ NoMemory) }
    ensures shorter { IfOk result (λ _. length reader.new < length reader.old) }
{
    let opcode = reader.take_opcode(Class::TrapIf)?;
    let suffix = read_opt_suffix(reader)?;
    let x = reader.take(Class::Value)?;
    reader.take(Class::Comma)?;
    let code = read_trap_code(reader)?;
    Ok(RawInst {
        opcode,
        suffix,
        operands: RawOperands::TrapIf(x, code),
    })
}
