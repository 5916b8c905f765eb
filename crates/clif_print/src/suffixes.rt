//! Which suffix an opcode is printed with.
ghost use Rattle.std.specs.Prelude.{◌≡◌, ℕ, ◌<◌, List, Option};
ghost use Rattle.ir_core.specs.Lookup.{type_of};
ghost use Rattle.ir_text.specs.Numbering.{Numbering};
ghost use Rattle.ir_text.specs.TextInstructions.{has_type, is_known, shown_suffix, typing_operand};
ghost use Rattle.ir_core.specs.Forms.{controlling};
ghost use Rattle.ir_core.specs.Viewed.{instruction_of};

use clif_numbers::FuncNumbers;
use clk_num::Op;
use ir_core::{Func, Inst, InstData, Ty, Value};

/// The type of a value, where the function has the value.
pub(crate) fn type_of(func: &Func, value: Value) -> Option<Ty>
    ensures { result ≡ type_of func.now.function value }
{
    if (value.number() as usize) < func.values() {
        Some(func.ty(value))
    } else {
        None
    }
}

/// Whether a value has a type.
fn has_type(func: &Func, value: Value, ty: Ty) -> bool
    ensures { result ≡ has_type func.now.function value ty }
{
    match type_of(func, value) {
        Some(own) => own.is(ty),
        None => false,
    }
}

/// Whether a reader knows the type from the operand: it is defined before, and has the type.
fn is_known(func: &Func, numbers: &FuncNumbers, next: u32, ty: Ty, operand: Option<Value>) -> bool
    ensures { result ≡ is_known func.now.function numbers.now.numbering next ty operand }
{
    match operand {
        Some(value) => numbers.value(value) < u64::from(next) && has_type(func, value, ty),
        None => false,
    }
}

/// The operand that gives the type of an instruction whose form may leave the suffix out.
fn typing_operand(inst: &Inst) -> Option<Value>
    ensures { result ≡ typing_operand (instruction_of inst.now) }
{
    match inst {
        Inst::Pure { op, args } => controlling(*op, args.as_slice()),
        Inst::PureImm { op: _, arg, imm: _ } => Some(*arg),
        Inst::Store {
            narrow: _,
            flags: _,
            value,
            address: _,
            offset: _,
        } => Some(*value),
        Inst::StackStore {
            value,
            slot: _,
            offset: _,
        } => Some(*value),
        Inst::Brif {
            cond,
            yes: _,
            no: _,
        } => Some(*cond),
        Inst::Trapz { cond, code: _ } => Some(*cond),
        Inst::Trapnz { cond, code: _ } => Some(*cond),
        _ => None,
    }
}

/// The operand that gives the type of an operation, where its suffix may be left out.
fn controlling(op: Op, args: &[Value]) -> Option<Value>
    ensures { result ≡ controlling op args.now }
{
    match op {
        Op::Select => args.get(1).copied(),
        Op::Uextend(_) => None,
        Op::Sextend(_) => None,
        Op::Ireduce(_) => None,
        _ => args.first().copied(),
    }
}

/// The suffix that is printed where the form may leave it out.
pub(crate) fn shown_suffix(
    func: &Func,
    numbers: &FuncNumbers,
    next: u32,
    line: &InstData,
) -> Option<Ty>
    ensures { result
        ≡ shown_suffix func.now.function numbers.now.numbering next line.now.ty
        (typing_operand (instruction_of line.now.inst)) }
{
    match line.ty {
        Some(ty) => {
            if is_known(func, numbers, next, ty, typing_operand(&line.inst)) {
                None
            } else {
                Some(ty)
            }
        }
        None => None,
    }
}
