//! Sizes of parts of a function, each within a limit: what a part leaves of it.
ghost use Rattle.std.specs.Prelude.{◌≡◌, ◌+◌, ◌-◌, ◌≤◌, SomeIff, length};
ghost use Rattle.ir_core.specs.Size.{total, argument_count, operand_count, entry_count, line_size, sig_size};
ghost use Rattle.ir_core.specs.Viewed.{instruction_of, line_of};
ghost use Rattle.splice_size.specs.SizeAfter.{table_size};

use exn_tables::Entry;
use ir_core::{BlockCall, Inst, InstData, Sig};

/// What the instruction's size leaves of a limit, where it is within.
pub(crate) fn take_line(left: usize, added: &InstData) -> Option<usize>
    ensures { SomeIff result (line_size (line_of added.now) ≤ left) (left - line_size (line_of added.now)) }
{
    let left = left.checked_sub(1)?;
    let left = left.checked_sub(added.results.as_slice().len())?;
    let left = left.checked_sub(added.tags.list().len())?;
    take_operands(left, &added.inst)
}

/// The same of a signature.
pub(crate) fn take_sig(left: usize, sig: &Sig) -> Option<usize>
    ensures { SomeIff result (sig_size sig.now ≤ left) (left - sig_size sig.now) }
{
    let left = left.checked_sub(1)?;
    let left = left.checked_sub(sig.params.as_slice().len())?;
    left.checked_sub(sig.results.as_slice().len())
}

/// The same of the operands and the entries of tables.
fn take_operands(left: usize, inst: &Inst) -> Option<usize>
    ensures { SomeIff result
        (operand_count (instruction_of inst.now) + entry_count (instruction_of inst.now) ≤ left)
        (left - (operand_count (instruction_of inst.now) + entry_count (instruction_of inst.now))) }
{
    match inst {
        Inst::Nop
        | Inst::SequencePoint
        | Inst::Const(_)
        | Inst::StackLoad { .. }
        | Inst::FuncAddr(_)
        | Inst::Trap(_) => Some(left),
        Inst::PureImm { .. }
        | Inst::Load { .. }
        | Inst::StackStore { .. }
        | Inst::Trapz { .. }
        | Inst::Trapnz { .. } => left.checked_sub(1),
        Inst::Store { .. } => left.checked_sub(2),
        Inst::Pure { args, .. }
        | Inst::Return(args)
        | Inst::Call { args, .. }
        | Inst::ReturnCall { args, .. } => left.checked_sub(args.as_slice().len()),
        Inst::CallIndirect { args, .. } | Inst::ReturnCallIndirect { args, .. } => {
            let left = left.checked_sub(1)?;
            left.checked_sub(args.as_slice().len())
        }
        Inst::Jump(target) => left.checked_sub(target.args.as_slice().len()),
        Inst::Brif { yes, no, .. } => {
            let left = left.checked_sub(1)?;
            let left = left.checked_sub(yes.get().args.as_slice().len())?;
            left.checked_sub(no.get().args.as_slice().len())
        }
        Inst::BrTable {
            default,
            entries,
            ..
        } => {
            let left = left.checked_sub(1)?;
            let left = left.checked_sub(default.get().args.as_slice().len())?;
            take_targets(left, entries.as_slice())
        }
        Inst::TryCall {
            args,
            normal,
            table,
            ..
        } => {
            let left = left.checked_sub(args.as_slice().len())?;
            let left = left.checked_sub(normal.get().args.as_slice().len())?;
            take_entries(left, table.get().entries())
        }
        Inst::TryCallIndirect {
            args,
            normal,
            table,
            ..
        } => {
            let left = left.checked_sub(1)?;
            let left = left.checked_sub(args.as_slice().len())?;
            let left = left.checked_sub(normal.get().args.as_slice().len())?;
            take_entries(left, table.get().entries())
        }
    }
}

/// The same of the entries of a `br_table`, each with its arguments. No more entries are looked at than the limit.
fn take_targets(left: usize, entries: &[BlockCall]) -> Option<usize>
    ensures { SomeIff result
        (length entries.now + total argument_count entries.now ≤ left)
        (left - (length entries.now + total argument_count entries.now)) }
{
    let mut left = left.checked_sub(entries.len())?;
    for target in entries {
        left = left.checked_sub(target.args.as_slice().len())?;
    }
    Some(left)
}

/// The same of the entries of an exception table.
fn take_entries(left: usize, entries: &[Entry<BlockCall>]) -> Option<usize>
    ensures { SomeIff result (table_size entries.now ≤ left) (left - table_size entries.now) }
{
    let mut left = left.checked_sub(entries.len())?;
    for entry in entries {
        left = left.checked_sub(entry.target.args.as_slice().len())?;
    }
    Some(left)
}
