//! The operand that gives an instruction its type.
ghost use Rattle.std.specs.Prelude.{◌≡◌};
ghost use Rattle.clif_names.specs.Typing as spec;

use clif_insts::{RawInst, RawOperands};
use token_reader::RawName;

/// The operand that gives the instruction its type, where the suffix may be left out.
pub fn gives_type(operands: &RawOperands) -> Option<RawName>
    ensures { result ≡ spec.gives_type operands.now }
{
    match operands {
        RawOperands::Unary(x)
        | RawOperands::Binary(x, _)
        | RawOperands::Ternary(_, x, _)
        | RawOperands::Compare(_, x, _)
        | RawOperands::BinaryImm(x, _)
        | RawOperands::CompareImm(_, x, _)
        | RawOperands::Store { value: x, .. }
        | RawOperands::StackStore { value: x, .. }
        | RawOperands::Brif { cond: x, .. }
        | RawOperands::TrapIf(x, _) => Some(*x),
        _ => None,
    }
}

/// The operand whose type is asked for: there is no suffix.
pub(crate) fn asks(inst: &RawInst) -> Option<RawName>
    ensures { result ≡ spec.asks inst.now }
{
    match inst.suffix {
        None => gives_type(&inst.operands),
        Some(_) => None,
    }
}
