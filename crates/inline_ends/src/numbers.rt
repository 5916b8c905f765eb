//! Numbers of a callee's blocks in the caller.
ghost use Rattle.std.specs.Prelude.{◌≡◌, ◌+◌, ◌<◌, ◌^◌, length, map, get_or, IfOk};
ghost use Rattle.ir_core.specs.Lookup.{block_numbers};
ghost use Rattle.inline_ends.specs.Ending.{numbered};

use ir_core::{Block, Func, List};
use std::alloc::{AllocError, Global};

/// For each block of a callee its number in the caller: those from `first` on, in list order.
pub fn number_blocks(alloc: Global, callee: &Func, first: u32) -> Result<List<Block>, AllocError>
    requires { first + length callee.now.function.blocks < 2 ^ 32 }
    ensures as_many { IfOk result (λ t. length t ≡ length callee.now.function.blocks) }
    ensures numbers { IfOk result (λ t. map (λ b. get_or t b 0) (block_numbers callee.now.function.blocks)
        ≡ numbered first (block_numbers callee.now.function.blocks)) }
{
    let mut table = vec![in alloc; Block::new(0); callee.block_count()]?;
    let mut number = first;
    'written: for block in callee.blocks() {
        table[block.number() as usize] = Block::new(number);
        number += 1;
    }
    Ok(List::from_vec(table))
}
