//! Instructions under the numbers of their words.
ghost use Rattle.std.specs.Prelude.{◌≡◌, IfOk};
ghost use Rattle.ir_core.specs.Lists.{Each};
ghost use Rattle.ir_core.specs.Module.{Plain};
ghost use Rattle.ir_core.specs.Viewed as viewed;
ghost use Rattle.clif_names.specs.Limits.{operand_limits, target_limits};
ghost use Rattle.name_tables.specs.Uses.{operand_targets};
ghost use Rattle.clif_lines.specs.WordRenaming.{renaming};
ghost use Rattle.clif_lines.specs.Keeping.{AllKeep};
ghost use Rattle.clif_meaning.specs.Instructions as spec;

use crate::accesses::{load, stack_load, stack_store, store};
use crate::branches::{br_table, brif};
use crate::calls::{call, call_indirect, try_call, try_call_indirect};
use crate::narrowing::trap_code;
use crate::operations::{constant_of, immediate_of, operation};
use crate::targets::{target, values};
use crate::words::WordNumbers;
use clif_insts::{RawInst, RawOperands};
use clif_words::Opcode;
use clk_num::{Op, TrapCode};
use ir_core::{Inst, Ty, Value, Values};
use std::alloc::{AllocError, Global};

/// An instruction without operands.
fn nullary(opcode: Opcode) -> Inst
    ensures { viewed.instruction_of result ≡ spec.nullary opcode }
{
    match opcode {
        Opcode::SequencePoint => Inst::SequencePoint,
        _ => Inst::Nop,
    }
}

/// A trap by a condition.
fn trap_if(opcode: Opcode, cond: Value, code: TrapCode) -> Inst
    ensures { viewed.instruction_of result ≡ Plain (spec.trap_if opcode cond code) }
{
    match opcode {
        Opcode::Trapnz => Inst::Trapnz { cond, code },
        _ => Inst::Trapz { cond, code },
    }
}

/// The instruction that is written, `ty` being its type.
pub fn instruction(
    alloc: Global,
    words: &WordNumbers<'_>,
    ty: Ty,
    inst: &RawInst,
) -> Result<Inst, AllocError>
    requires limits { AllKeep (operand_limits inst.now.suffix inst.now.operands) }
    requires targets { Each (λ t. AllKeep (target_limits t)) (operand_targets inst.now.operands) }
    ensures { IfOk result
        (λ made. viewed.instruction_of made
        ≡ spec.instruction_of (renaming words.now) inst.now.opcode.kind ty inst.now.operands) }
{
    let opcode = inst.opcode.kind;
    match &inst.operands {
        RawOperands::Nullary => Ok(nullary(opcode)),
        RawOperands::Number(number) => Ok(Inst::Const(constant_of(ty, number.value))),
        RawOperands::Unary(x) => Ok(Inst::Pure {
            op: operation(opcode, ty),
            args: Values::one(words.value(*x)),
        }),
        RawOperands::Binary(x, y) => Ok(Inst::Pure {
            op: operation(opcode, ty),
            args: Values::two(words.value(*x), words.value(*y)),
        }),
        RawOperands::Ternary(c, x, y) => {
            let args = [words.value(*c), words.value(*x), words.value(*y)];
            Ok(Inst::Pure {
                op: operation(opcode, ty),
                args: Values::from_slice(alloc, args.as_slice())?,
            })
        }
        RawOperands::Compare(cc, x, y) => Ok(Inst::Pure {
            op: Op::Icmp(*cc),
            args: Values::two(words.value(*x), words.value(*y)),
        }),
        RawOperands::BinaryImm(x, number) => {
            let op = operation(opcode, ty);
            Ok(Inst::PureImm {
                op,
                arg: words.value(*x),
                imm: immediate_of(op, ty, number.value),
            })
        }
        RawOperands::CompareImm(cc, x, number) => {
            let op = Op::Icmp(*cc);
            Ok(Inst::PureImm {
                op,
                arg: words.value(*x),
                imm: immediate_of(op, ty, number.value),
            })
        }
        RawOperands::Load {
            flags,
            address,
            offset,
        } => Ok(load(words, opcode, ty, flags.as_slice(), *address, offset)),
        RawOperands::Store {
            flags,
            value,
            address,
            offset,
        } => Ok(store(words, opcode, flags.as_slice(), *value, *address, offset)),
        RawOperands::StackLoad { slot, offset } => Ok(stack_load(words, ty, *slot, offset)),
        RawOperands::StackStore {
            value,
            slot,
            offset,
        } => Ok(stack_store(words, *value, *slot, offset)),
        RawOperands::FuncAddr(callee) => Ok(Inst::FuncAddr(words.callee(*callee))),
        RawOperands::Jump(written) => Ok(Inst::Jump(target(alloc, words, written)?)),
        RawOperands::Brif { cond, yes, no } => brif(alloc, words, *cond, yes.get(), no.get()),
        RawOperands::BrTable {
            index,
            default,
            entries,
        } => br_table(alloc, words, *index, default.get(), entries.as_slice()),
        RawOperands::Return(returned) => {
            Ok(Inst::Return(values(alloc, words, returned.as_slice())?))
        }
        RawOperands::Trap(code) => Ok(Inst::Trap(trap_code(*code))),
        RawOperands::TrapIf(x, code) => Ok(trap_if(opcode, words.value(*x), trap_code(*code))),
        RawOperands::Call { callee, args } => {
            let args = values(alloc, words, args.as_slice())?;
            Ok(call(opcode, words.callee(*callee), args))
        }
        RawOperands::TryCall {
            callee,
            args,
            sig,
            normal,
            table,
        } => try_call(
            alloc,
            words,
            *callee,
            args.as_slice(),
            *sig,
            normal.get(),
            table.get().as_slice(),
        ),
        RawOperands::CallIndirect { sig, address, args } => {
            let args = values(alloc, words, args.as_slice())?;
            Ok(call_indirect(opcode, words.sig(*sig), words.value(*address), args))
        }
        RawOperands::TryCallIndirect {
            address,
            args,
            sig,
            normal,
            table,
        } => try_call_indirect(
            alloc,
            words,
            *address,
            args.as_slice(),
            *sig,
            normal.get(),
            table.get().as_slice(),
        ),
    }
}
