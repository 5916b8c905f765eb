//! Entry into blocks.
ghost use Rattle.std.specs.Prelude.{◌≡◌, IfOk, List};
ghost use Rattle.clk_num.specs.Views.{data_of_all};
ghost use Rattle.ir_core.specs.Lookup.{find_block};
ghost use Rattle.ir_semantics.specs.Machine.{Wait as RunWait, World as RunWorld};
ghost use Rattle.ir_semantics.specs.Step as step;
ghost use Rattle.interp.specs.State.{function_at, frame_of, entry_of, on_if, Linked};

use crate::moves::{bind, read_args};
use crate::state::{Entry, Frame, Program};
use clk_num::Bits;
use ir_core::{Block, BlockCall};
use std::alloc::AllocError;

/// The block of a number, in the function at a place.
pub fn block_of<'m>(program: &Program<'m>, at: usize, block: Block) -> Option<Entry<'m>>
    requires linked { Linked program.now }
    ensures { find_block block (function_at program.now.module.now at).blocks ≡ entry_of block result }
{
    let module = program.module;
    if at >= module.len() {
        return None;
    }
    let func = module.func(at);
    if block.number() as usize >= program.links[at].blocks {
        return None;
    }
    let params = func.params(block);
    let lines = func.inst_slice(block);
    Some(Entry { params, lines })
}

/// Enters a block. False where the run is stuck.
pub fn enter<'m>(
    program: &Program<'m>,
    frame: &mut Frame<'m>,
    block: Block,
    xs: &[Bits],
) -> Result<bool, AllocError>
    requires linked { Linked program.now }
    ensures { IfOk result (λ b. (s : List RunWait) (w : RunWorld)
        → on_if b (frame_of program.now.module.now frame.new) s w
        ≡ step.enter (frame_of program.now.module.now frame.old) block (data_of_all xs.now) s w) }
{
    let Some(entry) = block_of(program, frame.at, block) else {
        return Ok(false);
    };
    if !bind(&mut frame.values, entry.params, xs)? {
        return Ok(false);
    }
    frame.rest = entry.lines;
    Ok(true)
}

/// Enters a target, whose arguments may be results of a call or payloads of an exception. False where the run is stuck.
pub fn enter_target<'m>(
    program: &Program<'m>,
    frame: &mut Frame<'m>,
    target: &BlockCall,
    results: &[Bits],
    payloads: &[Bits],
    xs: &mut Vec<Bits>,
) -> Result<bool, AllocError>
    requires linked { Linked program.now }
    ensures { IfOk result (λ b. (s : List RunWait) (w : RunWorld)
        → on_if b (frame_of program.now.module.now frame.new) s w
        ≡ step.enter_target (frame_of program.now.module.now frame.old) target.now (data_of_all results.now)
        (data_of_all payloads.now) s w) }
{
    if !read_args(&frame.values, results, payloads, target.args.as_slice(), xs)? {
        return Ok(false);
    }
    enter(program, frame, target.block, xs)
}
