//! Blocks of a callee's body.
ghost use Rattle.std.specs.Prelude.{◌≡◌, map, length, IfOk};
ghost use Rattle.ir_core.specs.Lists.{In, Each};
ghost use Rattle.ir_core.specs.Lookup.{block_numbers};
ghost use Rattle.ir_core.specs.Edits.{lines_of, block_at};
ghost use Rattle.ir_core.specs.Viewed.{line_of};
ghost use Rattle.inline_body.specs.Named.{names_of};
ghost use Rattle.inline_body.specs.Inlined.{inlined_block, blocks_from, inlined_lines, results_from};
ghost use Rattle.inline_body.specs.Inlined.{BlockReached};

use crate::lines::inline_lines;
use crate::names::Names;
use crate::numbers::{new_values, renumber_values};
use debug_tags::Tags;
use ir_core::{Block, Func, InstData, List, Values};
use std::alloc::{AllocError, Global};

/// A block's number and its lines.
#[derive(Drop)]
pub struct BlockLines {
    pub block: Block,
    pub lines: List<InstData>,
}

/// Blocks: the parameters of each, and the lines of each.
#[derive(Drop)]
pub struct InlinedBlocks {
    pub block_params: List<Values>,
    pub block_lines: List<BlockLines>,
}

/// A block of the callee, without its parameters, as it stands in the caller.
fn inline_block(
    alloc: Global,
    names: &Names,
    outer: &Tags,
    after: Block,
    starts: &[u32],
    count: u32,
    callee: &Func,
    block: Block,
) -> Result<BlockLines, AllocError>
    requires there { In block (block_numbers callee.now.function.blocks) }
    requires reached { BlockReached names.now starts.now count (block_at callee.now.function.blocks block) }
    ensures block { IfOk result (λ x. x.block ≡ (names_of names.now).block block) }
    ensures lines { IfOk result
        (λ x. map line_of x.lines
        ≡ inlined_lines names.now outer.now after (results_from starts.now count block)
        (lines_of block callee.now.function.blocks)) }
{
    let start = starts[block.number() as usize];
    let results = new_values(alloc, start, count)?;
    let lines = inline_lines(
        alloc,
        names,
        outer,
        after,
        &results,
        callee.inst_slice(block),
    )?;
    Ok(BlockLines {
        block: names.block(block),
        lines,
    })
}

/// The callee's blocks as they stand in the caller. The new results of a tail call begin at the number that `starts`
/// has for its block.
pub fn inline_blocks(
    alloc: Global,
    names: &Names,
    outer: &Tags,
    after: Block,
    starts: &[u32],
    count: u32,
    callee: &Func,
) -> Result<InlinedBlocks, AllocError>
    requires { Each (BlockReached names.now starts.now count) callee.now.function.blocks }
    ensures blocks { IfOk result (λ b. blocks_from b.block_params b.block_lines
        ≡ map (inlined_block names.now outer.now after starts.now count) callee.now.function.blocks) }
    ensures as_many { IfOk result (λ b. length b.block_params ≡ length b.block_lines) }
{
    let block_count = names.blocks.as_slice().len();
    let mut block_params = Vec::with_capacity(alloc, block_count)?;
    let mut block_lines = Vec::with_capacity(alloc, block_count)?;
    for block in callee.blocks() {
        block_params.push(renumber_values(alloc, names, callee.params(block))?)?;
        block_lines.push(inline_block(alloc, names, outer, after, starts, count, callee, block)?)?;
    }
    Ok(InlinedBlocks {
        block_params: List::from_vec(block_params),
        block_lines: List::from_vec(block_lines),
    })
}
