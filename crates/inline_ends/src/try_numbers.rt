//! Numbers of a callee's blocks at a `try_call`.
ghost use Rattle.std.specs.Prelude.{◌≡◌, ◌+◌, ◌<◌, ◌^◌, length, map, get_or, IfOk};
ghost use Rattle.ir_core.specs.Lookup.{block_numbers};
ghost use Rattle.ir_core.specs.Viewed.{line_of};
ghost use Rattle.inline_ends.specs.Tried.{plain_calls, plain_calls_in, numbered_with_calls};

use crate::trying::is_plain_call;
use ir_core::{Block, Func, InstData, List};
use std::alloc::{AllocError, Global};

/// How many of the instructions are plain calls.
fn count_plain_calls(lines: &[InstData]) -> usize
    ensures { result ≡ plain_calls (map line_of lines.now) }
{
    let mut count = 0;
    for line in lines {
        if is_plain_call(&line.inst) {
            count += 1;
        }
    }
    count
}

/// For each block of a callee its number in the caller: those from `first` on, in list order, where the blocks that go
/// on behind a block's calls follow it.
pub fn number_try_blocks(
    alloc: Global,
    callee: &Func,
    first: u32,
) -> Result<List<Block>, AllocError>
    requires { first + length callee.now.function.blocks + plain_calls_in callee.now.function.blocks < 2 ^ 32 }
    ensures as_many { IfOk result (λ t. length t ≡ length callee.now.function.blocks) }
    ensures numbers { IfOk result (λ t. map (λ b. get_or t b 0) (block_numbers callee.now.function.blocks)
        ≡ numbered_with_calls first callee.now.function.blocks) }
{
    let mut table = vec![in alloc; Block::new(0); callee.block_count()]?;
    let mut number = first;
    'written: for block in callee.blocks() {
        table[block.number() as usize] = Block::new(number);
        number += count_plain_calls(callee.inst_slice(block)) as u32 + 1;
    }
    Ok(List::from_vec(table))
}
