//! The words of an instruction's operands, by kind.
ghost use Rattle.std.specs.Prelude.{◌≡◌, fold};
ghost use Rattle.name_tables.specs.Taking.{refer};
ghost use Rattle.name_tables.specs.Uses as text;

use crate::names::Names;
use clif_insts::RawOperands;

impl Names {
    /// Takes the uses of values in operand places.
    pub fn refer_values(&mut self, operands: &RawOperands)
        ensures { self.new ≡ fold refer self.old (text.operand_values operands.now) }
    {
        match operands {
            RawOperands::Nullary
            | RawOperands::Number(_)
            | RawOperands::StackLoad { .. }
            | RawOperands::FuncAddr(_)
            | RawOperands::Jump(_)
            | RawOperands::Trap(_) => {}
            RawOperands::Unary(x)
            | RawOperands::BinaryImm(x, _)
            | RawOperands::CompareImm(_, x, _)
            | RawOperands::Load { address: x, .. }
            | RawOperands::StackStore { value: x, .. }
            | RawOperands::Brif { cond: x, .. }
            | RawOperands::BrTable { index: x, .. }
            | RawOperands::TrapIf(x, _) => self.refer(*x),
            RawOperands::Binary(x, y)
            | RawOperands::Compare(_, x, y)
            | RawOperands::Store {
                value: x,
                address: y,
                ..
            } => {
                self.refer(*x);
                self.refer(*y);
            }
            RawOperands::Ternary(c, x, y) => {
                self.refer(*c);
                self.refer(*x);
                self.refer(*y);
            }
            RawOperands::Return(args) | RawOperands::Call { args, .. } => {
                self.refer_all(args.as_slice());
            }
            RawOperands::TryCall { args, .. } => self.refer_all(args.as_slice()),
            RawOperands::CallIndirect { address, args, .. } => {
                self.refer(*address);
                self.refer_all(args.as_slice());
            }
            RawOperands::TryCallIndirect { address, args, .. } => {
                self.refer(*address);
                self.refer_all(args.as_slice());
            }
        }
    }

    /// Takes the uses of slots.
    pub fn refer_slots(&mut self, operands: &RawOperands)
        ensures { self.new ≡ fold refer self.old (text.operand_slots operands.now) }
    {
        match operands {
            RawOperands::StackLoad { slot, .. } | RawOperands::StackStore { slot, .. } => {
                self.refer(*slot)
            }
            _ => {}
        }
    }

    /// Takes the uses of callees.
    pub fn refer_callees(&mut self, operands: &RawOperands)
        ensures { self.new ≡ fold refer self.old (text.operand_callees operands.now) }
    {
        match operands {
            RawOperands::FuncAddr(callee)
            | RawOperands::Call { callee, .. }
            | RawOperands::TryCall { callee, .. } => self.refer(*callee),
            _ => {}
        }
    }

    /// Takes the uses of signatures.
    pub fn refer_sigs(&mut self, operands: &RawOperands)
        ensures { self.new ≡ fold refer self.old (text.operand_sigs operands.now) }
    {
        match operands {
            RawOperands::TryCall { sig, .. }
            | RawOperands::CallIndirect { sig, .. }
            | RawOperands::TryCallIndirect { sig, .. } => self.refer(*sig),
            _ => {}
        }
    }
}
