//! What of a callee counts where its body comes in place of a call.
ghost use Rattle.std.specs.Prelude.{◌≡◌, ◌+◌, ◌-◌, ◌<◌, ◌≤◌, ◌^◌, OnSome, SomeIff, map};
ghost use Rattle.ir_core.specs.Lists.{In};
ghost use Rattle.ir_core.specs.Lookup.{block_numbers};
ghost use Rattle.ir_core.specs.Size.{total, block_size, line_size, sig_size, size_at, size_of};
ghost use Rattle.ir_core.specs.Viewed.{line_of};
ghost use Rattle.splice_size.specs.Counts.{none, plus, summed, line_counts, counts_at, counts_of, sum_size};
ghost use Rattle.splice_size.specs.Counts.{IsSmall};

use crate::sizes::{take_line, take_sig};
use ir_core::{Block, Func, Inst, InstData, Sig};

/// What of a callee counts where its body comes in place of a call.
#[derive(Clone, Copy, PartialEq, Eq)]
pub struct Counts {
    /// The size of its blocks, without the operands of its returns.
    pub blocks: usize,
    /// The operands of its returns.
    pub returned: usize,
    /// Its returns.
    pub returns: usize,
    /// Its plain calls.
    pub calls: usize,
    /// The results of its plain calls.
    pub results: usize,
    /// Its tail calls.
    pub tail_calls: usize,
    /// Its `try_call`s.
    pub try_calls: usize,
    /// Its `sequence_point`s.
    pub sequence_points: usize,
}

impl Counts {
    /// Nothing that counts.
    fn none() -> Counts
        ensures { result ≡ none }
    {
        Counts {
            blocks: 0,
            returned: 0,
            returns: 0,
            calls: 0,
            results: 0,
            tail_calls: 0,
            try_calls: 0,
            sequence_points: 0,
        }
    }
}

/// What of a callee counts, where its size is at most the limit. The walk ends where the size passes the limit.
pub fn count_within(callee: &Func, limit: usize) -> Option<Counts>
    ensures { SomeIff result (size_of callee.now.function ≤ limit) (counts_of callee.now.function) }
{
    let left = limit.checked_sub(callee.slots().len())?;
    let left = left.checked_sub(callee.callees().len())?;
    let left = take_sigs(left, callee.sigs())?;
    count_blocks(callee, left)
}

/// What the size of signatures leaves of a limit, where it is within.
fn take_sigs(left: usize, sigs: &[Sig]) -> Option<usize>
    ensures { SomeIff result (total sig_size sigs.now ≤ left) (left - total sig_size sigs.now) }
{
    let mut left = left;
    for sig in sigs {
        left = take_sig(left, sig)?;
    }
    Some(left)
}

/// The counts of the blocks, where their size is at most the limit.
fn count_blocks(callee: &Func, limit: usize) -> Option<Counts>
    ensures { SomeIff result
        (total block_size callee.now.function.blocks ≤ limit) (counts_of callee.now.function) }
{
    let mut counts = Counts::none();
    let mut left = limit;
    for block in callee.blocks() {
        left = add_block(&mut counts, callee, block, left)?;
    }
    Some(counts)
}

/// Adds the counts of a block, and answers what its size leaves of the limit, where it is within. Where it is not, the
/// counts are of no use any more.
fn add_block(counts: &mut Counts, callee: &Func, block: Block, limit: usize) -> Option<usize>
    requires there { In block (block_numbers callee.now.function.blocks) }
    requires small { IsSmall counts.old }
    requires few { sum_size counts.old + limit < 2 ^ 64 }
    ensures left { SomeIff result
        (size_at callee.now.function.blocks block ≤ limit) (limit - size_at callee.now.function.blocks block) }
    ensures added { OnSome result (counts.new ≡ plus counts.old (counts_at callee.now.function.blocks block)) }
{
    let left = limit.checked_sub(1)?;
    let left = left.checked_sub(callee.params(block).len())?;
    counts.blocks += limit - left;
    add_lines(counts, callee.inst_slice(block), left)
}

/// The same of instructions.
fn add_lines(counts: &mut Counts, lines: &[InstData], limit: usize) -> Option<usize>
    requires small { IsSmall counts.old }
    requires few { sum_size counts.old + limit < 2 ^ 64 }
    ensures left { SomeIff result
        (total line_size (map line_of lines.now) ≤ limit) (limit - total line_size (map line_of lines.now)) }
    ensures added { OnSome result (counts.new ≡ plus counts.old (summed line_counts (map line_of lines.now))) }
{
    let mut left = limit;
    for added in lines {
        let rest = take_line(left, added)?;
        add_line(counts, added, left - rest);
        left = rest;
    }
    Some(left)
}

/// Adds the counts of an instruction of the size.
#[inline]
fn add_line(counts: &mut Counts, added: &InstData, size: usize)
    requires size { size ≡ line_size (line_of added.now) }
    requires small { IsSmall counts.old }
    requires few { sum_size counts.old + size < 2 ^ 64 }
    ensures { counts.new ≡ plus counts.old (line_counts (line_of added.now)) }
{
    counts.blocks += size;
    match &added.inst {
        Inst::SequencePoint => counts.sequence_points += 1,
        Inst::Return(values) => {
            let returned = values.as_slice().len();
            counts.blocks -= returned;
            counts.returned += returned;
            counts.returns += 1;
        }
        Inst::Call { .. } | Inst::CallIndirect { .. } => {
            counts.calls += 1;
            counts.results += added.results.as_slice().len();
        }
        Inst::ReturnCall { .. } | Inst::ReturnCallIndirect { .. } => counts.tail_calls += 1,
        Inst::TryCall { .. } | Inst::TryCallIndirect { .. } => counts.try_calls += 1,
        Inst::Nop
        | Inst::Const(_)
        | Inst::Pure { .. }
        | Inst::PureImm { .. }
        | Inst::Load { .. }
        | Inst::Store { .. }
        | Inst::StackLoad { .. }
        | Inst::StackStore { .. }
        | Inst::FuncAddr(_)
        | Inst::Jump(_)
        | Inst::Brif { .. }
        | Inst::BrTable { .. }
        | Inst::Trap(_)
        | Inst::Trapz { .. }
        | Inst::Trapnz { .. } => {}
    }
}
