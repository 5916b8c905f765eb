//! Blocks of a callee's body at a `try_call`.
ghost use Rattle.std.specs.Prelude.{◌≡◌, ℕ, ◌+◌, ◌<◌, ◌^◌, ◌++◌, [], length, map, get_or, IfOk, if◌then◌else◌};
ghost use Rattle.ir_core.specs.Lists.{In, Each};
ghost use Rattle.ir_core.specs.Lookup.{block_numbers};
ghost use Rattle.ir_core.specs.Viewed.{instruction_of, line_of};
ghost use Rattle.ir_core.specs.Edits.{block_at};
ghost use Rattle.ir_semantics.specs.Splice.{Fragment};
ghost use Rattle.inline_body.specs.Named.{names_of, Moves, Reached};
ghost use Rattle.inline_body.specs.Inlined.{blocks_from};
ghost use Rattle.inline_ends.specs.Tried.{is_plain_call as spec_is_plain_call, tried_line as spec_tried_line};
ghost use Rattle.inline_ends.specs.Tried.{with_line};
ghost use Rattle.inline_ends.specs.Tried.{tried_block, tried_blocks};
ghost use Rattle.inline_ends.specs.TriedParts.{made_blocks, AsMany, with_rest, CanTry, Called};

use crate::trying::{TrySite, is_plain_call, tried_line};
use inline_body::{BlockLines, InlinedBlocks, Names, renumber_values};
use ir_core::{Block, Func, InstData, List, Values};
use std::alloc::{AllocError, Global};

/// Blocks that are made: the parameters of each, and the lines of each.
#[derive(Drop)]
pub struct MadeBlocks {
    pub block_params: Vec<Values>,
    pub block_lines: Vec<BlockLines>,
}

/// The blocks that are made, and the number, the parameters and the lines so far of the one that is open.
#[derive(Drop)]
pub struct OpenBlock {
    pub made: MadeBlocks,
    pub block: Block,
    pub params: Values,
    pub lines: Vec<InstData>,
}

/// Puts the open block behind those that are made.
fn close(current: OpenBlock) -> Result<MadeBlocks, AllocError>
    requires { AsMany current.made }
    ensures blocks { IfOk result (λ m. made_blocks m ≡ with_rest current (record { lines = []; more = [] })) }
    ensures as_many { IfOk result AsMany }
{
    let OpenBlock {
        made,
        block,
        params,
        lines,
    } = current;
    let MadeBlocks {
        mut block_params,
        mut block_lines,
    } = made;
    block_params.push(params)?;
    block_lines.push(BlockLines {
        block,
        lines: List::from_vec(lines),
    })?;
    Ok(MadeBlocks {
        block_params,
        block_lines,
    })
}

/// Puts what a line becomes behind the lines of the open block. A plain call closes it, and opens the next one.
fn push_tried(
    alloc: Global,
    names: &Names,
    site: &TrySite,
    current: OpenBlock,
    line: &InstData,
) -> Result<OpenBlock, AllocError>
    requires as_many { AsMany current.made }
    requires reached { Reached names.now (line_of line.now) }
    requires called { Called names.now site.now }
    requires few { length line.now.results < 2 ^ 32 }
    requires number { current.block + 1 < 2 ^ 32 }
    ensures blocks { IfOk result (λ o. (rest : Fragment)
        → with_rest o rest
        ≡ with_rest current (with_line names.now (current.block + 1) (line_of line.now)
        (spec_tried_line names.now site.now (current.block + 1) (line_of line.now) (instruction_of line.now.inst))
        (spec_is_plain_call (instruction_of line.now.inst)) rest)) }
    ensures as_many { IfOk result (λ o. AsMany o.made) }
    ensures number { IfOk result (λ o. o.block
        ≡ (if spec_is_plain_call (instruction_of line.now.inst) then current.block + 1 else current.block)) }
{
    let next = Block::new(current.block.number() + 1);
    let tried = tried_line(alloc, names, site, next, line)?;
    let mut current = current;
    current.lines.push(tried)?;
    if !is_plain_call(&line.inst) {
        return Ok(current);
    }
    Ok(OpenBlock {
        made: close(current)?,
        block: next,
        params: renumber_values(alloc, names, line.results.as_slice())?,
        lines: Vec::new(alloc),
    })
}

/// Puts what a block of the callee becomes behind the blocks that are made.
fn push_block(
    alloc: Global,
    names: &Names,
    site: &TrySite,
    made: MadeBlocks,
    callee: &Func,
    block: Block,
) -> Result<MadeBlocks, AllocError>
    requires as_many { AsMany made }
    requires there { In block (block_numbers callee.now.function.blocks) }
    requires can { CanTry names.now (block_at callee.now.function.blocks block) }
    requires called { Called names.now site.now }
    ensures blocks { IfOk result (λ m. made_blocks m
        ≡ made_blocks made ++ tried_block names.now site.now (block_at callee.now.function.blocks block)) }
    ensures as_many { IfOk result AsMany }
{
    let lines = callee.inst_slice(block);
    let mut current = OpenBlock {
        made,
        block: names.block(block),
        params: renumber_values(alloc, names, callee.params(block))?,
        lines: Vec::with_capacity(alloc, lines.len())?,
    };
    for line in lines {
        current = push_tried(alloc, names, site, current, line)?;
    }
    close(current)
}

/// What the callee's blocks become at a `try_call`.
pub fn try_blocks(
    alloc: Global,
    names: &Names,
    site: &TrySite,
    callee: &Func,
) -> Result<InlinedBlocks, AllocError>
    requires can { Each (CanTry names.now) callee.now.function.blocks }
    requires called { Called names.now site.now }
    ensures blocks { IfOk result (λ b. blocks_from b.block_params b.block_lines
        ≡ tried_blocks names.now site.now callee.now.function.blocks) }
    ensures as_many { IfOk result (λ b. length b.block_params ≡ length b.block_lines) }
{
    let block_count = names.blocks.as_slice().len();
    let mut made = MadeBlocks {
        block_params: Vec::with_capacity(alloc, block_count)?,
        block_lines: Vec::with_capacity(alloc, block_count)?,
    };
    for block in callee.blocks() {
        made = push_block(alloc, names, site, made, callee, block)?;
    }
    Ok(InlinedBlocks {
        block_params: List::from_vec(made.block_params),
        block_lines: List::from_vec(made.block_lines),
    })
}
