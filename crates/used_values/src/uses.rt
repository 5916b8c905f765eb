//! Availability of each value that an instruction uses, by the tree of dominators.
ghost use Rattle.std.specs.Prelude.{◌≡◌, ◌↔◌, ◌<◌, IsTrue, length, [], ◌∷◌};
ghost use Rattle.ir_core.specs.Lookup.{block_numbers};
ghost use Rattle.ir_core.specs.Lists.{In, Each, Below};
ghost use Rattle.ir_core.specs.Uses.{arg_values_used, operands, targets_used, targets, values_used};
ghost use Rattle.ir_core.specs.Viewed.{instruction_of};
ghost use Rattle.ir_semantics.specs.Available.{Available};

use avail_flow::{Avail, target_at};
use ir_core::{Arg, Block, Inst, Point, Value};

/// Whether each of these values is available at the point.
fn are_available(avail: &Avail<'_>, block: Block, index: u32, values: &[Value]) -> bool
    requires block { In block (block_numbers avail.now.blocks) }
    requires inside { Below (length avail.now.types) values.now }
    ensures { IsTrue result ↔ Each (Available avail.now block index) values.now }
{
    for i in 0..values.len() {
        if !avail.at(values[i], Point { block, index }) {
            return false;
        }
    }
    true
}

/// Whether each value among these arguments of a target is available at the point.
fn are_args_available(avail: &Avail<'_>, block: Block, index: u32, args: &[Arg]) -> bool
    requires block { In block (block_numbers avail.now.blocks) }
    requires inside { Below (length avail.now.types) (arg_values_used args.now) }
    ensures { IsTrue result ↔ Each (Available avail.now block index) (arg_values_used args.now) }
{
    for i in 0..args.len() {
        if !is_arg_available(avail, block, index, args[i]) {
            return false;
        }
    }
    true
}

/// Whether an argument of a target, if it is a value, is available at the point.
fn is_arg_available(avail: &Avail<'_>, block: Block, index: u32, arg: Arg) -> bool
    requires block { In block (block_numbers avail.now.blocks) }
    requires inside { Below (length avail.now.types) (arg_values_used (arg ∷ [])) }
    ensures { IsTrue result ↔ Each (Available avail.now block index) (arg_values_used (arg ∷ [])) }
{
    match arg {
        Arg::Value(value) => avail.at(value, Point { block, index }),
        Arg::Ret(_) => true,
        Arg::Exn(_) => true,
    }
}

/// Whether each value among the arguments of an instruction's targets is available at the point.
fn are_targets_available(avail: &Avail<'_>, block: Block, index: u32, inst: &Inst) -> bool
    requires block { In block (block_numbers avail.now.blocks) }
    requires inside { Below (length avail.now.types) (values_used (instruction_of inst.now)) }
    ensures { IsTrue result
        ↔ Each (Available avail.now block index) (targets_used (targets (instruction_of inst.now))) }
{
    let mut i = 0;
    while let Some(target) = target_at(inst, i) {
        if !are_args_available(avail, block, index, target.args.as_slice()) {
            return false;
        }
        i += 1;
    }
    true
}

/// Whether a value is available at the point.
fn is_available(avail: &Avail<'_>, block: Block, index: u32, value: Value) -> bool
    requires block { In block (block_numbers avail.now.blocks) }
    requires inside { value < length avail.now.types }
    ensures { IsTrue result ↔ Each (Available avail.now block index) (value ∷ []) }
{
    avail.at(value, Point { block, index })
}

/// Whether each of an instruction's own operands is available at the point.
fn are_operands_available(avail: &Avail<'_>, block: Block, index: u32, inst: &Inst) -> bool
    requires block { In block (block_numbers avail.now.blocks) }
    requires inside { Below (length avail.now.types) (operands (instruction_of inst.now)) }
    ensures { IsTrue result ↔ Each (Available avail.now block index) (operands (instruction_of inst.now)) }
{
    match inst {
        Inst::Nop => true,
        Inst::SequencePoint => true,
        Inst::Const(_) => true,
        Inst::StackLoad { .. } => true,
        Inst::FuncAddr(_) => true,
        Inst::Jump(_) => true,
        Inst::Trap(_) => true,
        Inst::PureImm { arg, .. } => is_available(avail, block, index, *arg),
        Inst::Load { address, .. } => is_available(avail, block, index, *address),
        Inst::Store { value, address, .. } => {
            is_available(avail, block, index, *value) && is_available(avail, block, index, *address)
        }
        Inst::StackStore { value, .. } => is_available(avail, block, index, *value),
        Inst::Trapz { cond, .. } => is_available(avail, block, index, *cond),
        Inst::Trapnz { cond, .. } => is_available(avail, block, index, *cond),
        Inst::Brif { cond, .. } => is_available(avail, block, index, *cond),
        Inst::BrTable { index: operand, .. } => is_available(avail, block, index, *operand),
        Inst::Pure { args, .. } => are_available(avail, block, index, args.as_slice()),
        Inst::Return(args) => are_available(avail, block, index, args.as_slice()),
        Inst::Call { args, .. } => are_available(avail, block, index, args.as_slice()),
        Inst::ReturnCall { args, .. } => are_available(avail, block, index, args.as_slice()),
        Inst::TryCall { args, .. } => are_available(avail, block, index, args.as_slice()),
        Inst::CallIndirect { address, args, .. } => {
            is_available(avail, block, index, *address)
                && are_available(avail, block, index, args.as_slice())
        }
        Inst::ReturnCallIndirect { address, args, .. } => {
            is_available(avail, block, index, *address)
                && are_available(avail, block, index, args.as_slice())
        }
        Inst::TryCallIndirect { address, args, .. } => {
            is_available(avail, block, index, *address)
                && are_available(avail, block, index, args.as_slice())
        }
    }
}

/// Whether each value that the instruction at the point uses is available there. It asks `Avail::at` at most once for
/// each use.
pub fn uses_available(avail: &Avail<'_>, block: Block, index: u32, inst: &Inst) -> bool
    requires block { In block (block_numbers avail.now.blocks) }
    requires inside { Below (length avail.now.types) (values_used (instruction_of inst.now)) }
    ensures { IsTrue result ↔ Each (Available avail.now block index) (values_used (instruction_of inst.now)) }
{
    if !are_operands_available(avail, block, index, inst) {
        return false;
    }
    are_targets_available(avail, block, index, inst)
}
