//! The size of instructions and signatures, as a part of a function's.
ghost use Rattle.std.specs.Prelude.{◌≡◌, ◌+◌, ◌<◌, List, length, map};
ghost use Rattle.ir_core.specs.Size.{total, argument_count, operand_count, entry_count, line_size, sig_size, capped};
ghost use Rattle.ir_core.specs.Uses.{table_targets};
ghost use Rattle.ir_core.specs.Viewed.{instruction_of, line_of};

use crate::instructions::{BlockCall, Inst, InstData};
use crate::signatures::Sig;
use exn_tables::Entry;

/// The greatest size that a function of a text may have.
pub const GREATEST_SIZE: usize = 262_144;

impl Sig {
    /// The signature's part of a function's size: one, its parameters and its results.
    pub(crate) fn size(&self) -> usize
        ensures { result ≡ capped (sig_size self.now) }
    {
        let params = self.params.as_slice().len();
        let results = self.results.as_slice().len();
        1usize.saturating_add(params).saturating_add(results)
    }
}

impl InstData {
    /// The instruction's part of a function's size: one, its results, operands, table entries and tags.
    pub(crate) fn size(&self) -> usize
        ensures { result ≡ capped (line_size (line_of self.now)) }
    {
        let results = self.results.as_slice().len();
        let tags = self.tags.list().len();
        1usize
            .saturating_add(results)
            .saturating_add(self.inst.operands())
            .saturating_add(tags)
    }
}

impl Inst {
    /// The number of operands and of entries of tables.
    fn operands(&self) -> usize
        ensures { result ≡ capped (operand_count (instruction_of self.now) + entry_count (instruction_of self.now)) }
    {
        match self {
            Inst::Nop
            | Inst::SequencePoint
            | Inst::Const(_)
            | Inst::StackLoad { .. }
            | Inst::FuncAddr(_)
            | Inst::Trap(_) => 0,
            Inst::PureImm { .. }
            | Inst::Load { .. }
            | Inst::StackStore { .. }
            | Inst::Trapz { .. }
            | Inst::Trapnz { .. } => 1,
            Inst::Store { .. } => 2,
            Inst::Pure { args, .. }
            | Inst::Return(args)
            | Inst::Call { args, .. }
            | Inst::ReturnCall { args, .. } => args.as_slice().len(),
            Inst::CallIndirect { args, .. } | Inst::ReturnCallIndirect { args, .. } => {
                1usize.saturating_add(args.as_slice().len())
            }
            Inst::Jump(target) => target.args.as_slice().len(),
            Inst::Brif { yes, no, .. } => {
                let yes = yes.get().args.as_slice().len();
                1usize
                    .saturating_add(yes)
                    .saturating_add(no.get().args.as_slice().len())
            }
            Inst::BrTable {
                default,
                entries,
                ..
            } => {
                let default = default.get().args.as_slice().len();
                1usize
                    .saturating_add(default)
                    .saturating_add(entries_size(entries.as_slice()))
            }
            Inst::TryCall {
                args,
                normal,
                table,
                ..
            } => {
                let args = args.as_slice().len();
                let normal = normal.get().args.as_slice().len();
                args.saturating_add(normal)
                    .saturating_add(table_size(table.get().entries()))
            }
            Inst::TryCallIndirect {
                args,
                normal,
                table,
                ..
            } => {
                let args = args.as_slice().len();
                let normal = normal.get().args.as_slice().len();
                1usize
                    .saturating_add(args)
                    .saturating_add(normal)
                    .saturating_add(table_size(table.get().entries()))
            }
        }
    }
}

/// The entries of a `br_table`, each with its arguments.
fn entries_size(entries: &[BlockCall]) -> usize
    ensures { result ≡ capped (length entries.now + total argument_count entries.now) }
{
    let mut size = entries.len();
    for target in entries {
        size = size.saturating_add(target.args.as_slice().len());
    }
    size
}

/// The entries of an exception table, each with its arguments.
fn table_size(entries: &[Entry<BlockCall>]) -> usize
    ensures { result ≡ capped (length entries.now + total argument_count (table_targets entries.now)) }
{
    let mut size = entries.len();
    for entry in entries {
        size = size.saturating_add(entry.target.args.as_slice().len());
    }
    size
}
