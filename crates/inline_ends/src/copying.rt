//! A callee's blocks under their numbers: what they become at a tail call.
ghost use Rattle.std.specs.Prelude.{◌≡◌, map, length, IfOk};
ghost use Rattle.ir_core.specs.Lists.{In, Each};
ghost use Rattle.ir_core.specs.Lookup.{block_numbers};
ghost use Rattle.ir_core.specs.Edits.{lines_of, block_at};
ghost use Rattle.ir_core.specs.Viewed.{line_of};
ghost use Rattle.inline_body.specs.Named.{names_of};
ghost use Rattle.inline_body.specs.Inlined.{copied_line, blocks_from};
ghost use Rattle.inline_ends.specs.Copied.{copied_block, CanCopy};

use debug_tags::Tags;
use inline_body::{BlockLines, InlinedBlocks, Names, copy_lines, renumber_values};
use ir_core::{Block, Func, List};
use std::alloc::{AllocError, Global};

/// A block of the callee, without its parameters, with its lines under their numbers.
fn copy_block(
    alloc: Global,
    names: &Names,
    outer: &Tags,
    callee: &Func,
    block: Block,
) -> Result<BlockLines, AllocError>
    requires there { In block (block_numbers callee.now.function.blocks) }
    requires reached { CanCopy names.now (block_at callee.now.function.blocks block) }
    ensures block { IfOk result (λ x. x.block ≡ (names_of names.now).block block) }
    ensures lines { IfOk result
        (λ x. map line_of x.lines
        ≡ map (copied_line names.now outer.now) (lines_of block callee.now.function.blocks)) }
{
    let lines = copy_lines(alloc, names, outer, callee.inst_slice(block))?;
    Ok(BlockLines {
        block: names.block(block),
        lines,
    })
}

/// The callee's blocks under their numbers in the caller.
pub fn copy_blocks(
    alloc: Global,
    names: &Names,
    outer: &Tags,
    callee: &Func,
) -> Result<InlinedBlocks, AllocError>
    requires { Each (CanCopy names.now) callee.now.function.blocks }
    ensures blocks { IfOk result (λ b. blocks_from b.block_params b.block_lines
        ≡ map (copied_block names.now outer.now) callee.now.function.blocks) }
    ensures as_many { IfOk result (λ b. length b.block_params ≡ length b.block_lines) }
{
    let block_count = names.blocks.as_slice().len();
    let mut block_params = Vec::with_capacity(alloc, block_count)?;
    let mut block_lines = Vec::with_capacity(alloc, block_count)?;
    for block in callee.blocks() {
        block_params.push(renumber_values(alloc, names, callee.params(block))?)?;
        block_lines.push(copy_block(alloc, names, outer, callee, block)?)?;
    }
    Ok(InlinedBlocks {
        block_params: List::from_vec(block_params),
        block_lines: List::from_vec(block_lines),
    })
}
