//! Availability that the numbers of values show, without a table: of values that are defined in the block that uses
//! them, or in the blocks through which each path begins.
ghost use Rattle.std.specs.Prelude.{◌≡◌, ◌<◌, ◌≤◌, ℕ, List, ◌∷◌, true, IfSome};
ghost use Rattle.std.specs.List.{list_all};
ghost use Rattle.ir_core.specs.Lookup.{block_numbers};
ghost use Rattle.ir_core.specs.Lists.{In};
ghost use Rattle.ir_core.specs.Uses.{operands, targets};
ghost use Rattle.ir_core.specs.Viewed.{instruction_of};
ghost use Rattle.ir_semantics.specs.Available.{Available};
ghost use Rattle.used_values.specs.Nearby.{knows, knows_arg, knows_target, knows_used};
ghost use Rattle.used_values.specs.Nearby.{UsesAvailableIn, AllUsesAvailable, IsPassed, leads_to, LeadsOnlyTo, IsChain};

use avail_flow::{ends_block, target_at};
use ir_core::{Arg, Block, Func, Inst, Value};

/// The values that are known to be available at an instruction, by their numbers.
#[derive(Clone, Copy)]
struct Known {
    /// Those below it are defined in earlier blocks, through which each path to this one goes.
    early: usize,
    /// Those from `start` on to `end` are defined in the instruction's own block, before it.
    start: usize,
    end: usize,
}

/// Whether a value is known to be available.
fn knows_value(known: Known, value: Value) -> bool
    ensures { result ≡ knows known value }
{
    let number = value.number() as usize;
    number < known.early || (known.start <= number && number < known.end)
}

/// Whether each of these values is known to be available.
fn knows_values(known: Known, values: &[Value]) -> bool
    ensures { result ≡ list_all (knows known) values.now }
{
    values.iter().all(|value| knows_value(known, *value))
}

/// Whether an argument of a target, if it is a value, is known to be available.
fn knows_argument(known: Known, arg: Arg) -> bool
    ensures { result ≡ knows_arg known arg }
{
    match arg {
        Arg::Value(value) => knows_value(known, value),
        Arg::Ret(_) => true,
        Arg::Exn(_) => true,
    }
}

/// Whether each value among these arguments of a target is known to be available.
fn knows_arguments(known: Known, args: &[Arg]) -> bool
    ensures { result ≡ list_all (knows_arg known) args.now }
{
    args.iter().all(|arg| knows_argument(known, *arg))
}

/// Whether each value among the arguments of an instruction's targets is known to be available.
fn knows_targets(known: Known, inst: &Inst) -> bool
    ensures { result ≡ list_all (knows_target known) (targets (instruction_of inst.now)) }
{
    let mut i = 0;
    while let Some(target) = target_at(inst, i) {
        if !knows_arguments(known, target.args.as_slice()) {
            return false;
        }
        i += 1;
    }
    true
}

/// Whether each of an instruction's own operands is known to be available.
fn knows_operands(known: Known, inst: &Inst) -> bool
    ensures { result ≡ list_all (knows known) (operands (instruction_of inst.now)) }
{
    match inst {
        Inst::Nop
        | Inst::SequencePoint
        | Inst::Const(_)
        | Inst::StackLoad { .. }
        | Inst::FuncAddr(_)
        | Inst::Jump(_)
        | Inst::Trap(_) => true,
        Inst::PureImm { arg: value, .. }
        | Inst::Load { address: value, .. }
        | Inst::StackStore { value, .. }
        | Inst::Trapz { cond: value, .. }
        | Inst::Trapnz { cond: value, .. }
        | Inst::Brif { cond: value, .. }
        | Inst::BrTable { index: value, .. } => knows_value(known, *value),
        Inst::Store { value, address, .. } => {
            knows_value(known, *value) && knows_value(known, *address)
        }
        Inst::Pure { args, .. }
        | Inst::Return(args)
        | Inst::Call { args, .. }
        | Inst::ReturnCall { args, .. }
        | Inst::TryCall { args, .. } => knows_values(known, args.as_slice()),
        Inst::CallIndirect { address, args, .. }
        | Inst::ReturnCallIndirect { address, args, .. }
        | Inst::TryCallIndirect { address, args, .. } => {
            knows_value(known, *address) && knows_values(known, args.as_slice())
        }
    }
}

/// Whether each value that an instruction uses is known to be available.
fn knows_uses(known: Known, inst: &Inst) -> bool
    ensures { result ≡ knows_used known (instruction_of inst.now) }
{
    knows_operands(known, inst) && knows_targets(known, inst)
}

/// The number after those of these values, as far as they go on from `next` in order.
fn count_on(values: &[Value], next: usize) -> usize
    ensures { (v : ℕ) → next ≤ v → v < result → In v values.now }
{
    let mut end = next;
    for value in values {
        if value.number() as usize == end {
            end += 1;
        }
    }
    end
}

/// The number after those of a block's values, if each value that an instruction of it uses is known to be available.
/// The values below `early` are so at each instruction, and the block's own begin at `start`.
fn walk_block(func: &Func, block: Block, early: usize, start: usize) -> Option<usize>
    requires there { In block (block_numbers func.now.function.blocks) }
    requires early { (v i : ℕ) → v < early → Available func.now.function block i v }
    ensures { IfSome result (λ end. UsesAvailableIn func.now.function block) }
{
    let mut end = count_on(func.params(block), start);
    for added in func.inst_slice(block) {
        if !knows_uses(Known { early, start, end }, &added.inst) {
            return None;
        }
        end = count_on(added.results.as_slice(), end);
    }
    Some(end)
}

/// The number up to which a block's values, which begin at `start`, are defined before a path leaves it.
fn find_early(func: &Func, block: Block, start: usize) -> usize
    requires { In block (block_numbers func.now.function.blocks) }
    ensures { (v : ℕ) → start ≤ v → v < result → IsPassed func.now.function block v }
{
    let mut end = count_on(func.params(block), start);
    for added in func.inst_slice(block) {
        if ends_block(&added.inst) {
            return end;
        }
        end = count_on(added.results.as_slice(), end);
    }
    end
}

/// Whether an instruction leads to no other block than this one.
fn leads_to_block(inst: &Inst, block: Block) -> bool
    ensures { result ≡ list_all (leads_to block) (targets (instruction_of inst.now)) }
{
    let mut i = 0;
    while let Some(target) = target_at(inst, i) {
        if target.block.number() != block.number() {
            return false;
        }
        i += 1;
    }
    true
}

/// Whether the block `from` leads to no other block than `to`.
fn leads_only_to(func: &Func, from: Block, to: Block) -> bool
    requires { In from (block_numbers func.now.function.blocks) }
    ensures { result ≡ true → LeadsOnlyTo func.now.function from to }
{
    for added in func.inst_slice(from) {
        if !leads_to_block(&added.inst, to) {
            return false;
        }
    }
    true
}

/// The first blocks of a function, in list order, of which each but the last leads to the next one alone. So each path
/// to a block behind them has passed the values that they define.
#[derive(Clone, Copy)]
struct Chain {
    /// The last of them. None where blocks that do not belong to it have been passed.
    last: Option<Block>,
    /// The values below it are available in the blocks behind.
    early: usize,
}

/// The chain behind the next block, whose values begin at `start`.
fn follow(func: &Func, chain: Chain, block: Block, start: usize) -> Chain
    requires there { In block (block_numbers func.now.function.blocks) }
    requires last { IfSome chain.last (λ a. In a (block_numbers func.now.function.blocks)) }
    ensures chain { (left : List ℕ) → IsChain func.now.function chain (block ∷ left)
        → IsChain func.now.function result left }
    ensures last { IfSome result.last (λ a. In a (block_numbers func.now.function.blocks)) }
{
    let Some(last) = chain.last else {
        return chain;
    };
    if chain.early != start || !leads_only_to(func, last, block) {
        return Chain {
            last: None,
            early: chain.early,
        };
    }
    Chain {
        last: Some(block),
        early: find_early(func, block, start),
    }
}

/// Whether the numbers of values show that each value that an instruction of a function uses is available there. Takes
/// time linear in the function, and no memory. False says nothing.
pub fn shows_available(func: &Func) -> bool
    ensures { result ≡ true → AllUsesAvailable func.now.function }
{
    let mut blocks = func.blocks();
    let Some(first) = blocks.next() else {
        return false;
    };
    let Some(mut end) = walk_block(func, first, 0, 0) else {
        return false;
    };
    let mut chain = Chain {
        last: Some(first),
        early: find_early(func, first, 0),
    };
    for block in blocks {
        let Some(next) = walk_block(func, block, chain.early, end) else {
            return false;
        };
        chain = follow(func, chain, block, end);
        end = next;
    }
    true
}
