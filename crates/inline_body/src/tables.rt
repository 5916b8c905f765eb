//! Blocks counted, and the numbers of a callee's blocks in the caller.
ghost use Rattle.std.specs.Prelude.{◌≡◌, ◌+◌, ◌<◌, ◌^◌, ◌*◌, length, map, get_or, IfOk};
ghost use Rattle.ir_core.specs.Lookup.{block_numbers};
ghost use Rattle.inline_body.specs.Dense.{after_number, numbers_along};

use ir_core::{Block, Func, List};
use std::alloc::{AllocError, Global};

/// The number behind a number, where the one behind `first` is left out.
fn number_after(first: u32, number: u32) -> u32
    requires { number + 2 < 2 ^ 32 }
    ensures { result ≡ after_number first number }
{
    if number == first {
        number + 2
    } else {
        number + 1
    }
}

/// For each block of a callee its number in the caller: `first` for the first one, then those from `first + 2` on.
pub fn number_blocks(alloc: Global, callee: &Func, first: u32) -> Result<List<Block>, AllocError>
    requires { first + 2 * length callee.now.function.blocks + 2 < 2 ^ 32 }
    ensures as_many { IfOk result (λ t. length t ≡ length callee.now.function.blocks) }
    ensures numbers { IfOk result (λ t. map (λ b. get_or t b 0) (block_numbers callee.now.function.blocks)
        ≡ numbers_along first first (block_numbers callee.now.function.blocks)) }
{
    let mut table = vec![in alloc; Block::new(0); callee.block_count()]?;
    let mut number = first;
    'written: for block in callee.blocks() {
        table[block.number() as usize] = Block::new(number);
        number = number_after(first, number);
    }
    Ok(List::from_vec(table))
}
