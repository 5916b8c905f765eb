//! Lines of blocks.
ghost use Rattle.std.specs.Prelude.{◌≡◌, ℕ, ◌+◌, ◌-◌, ◌<◌, ◌≤◌, ◌^◌, length};
ghost use Rattle.ir_core.specs.Lookup.{block_numbers, definitions, line_definitions};
ghost use Rattle.ir_core.specs.Lists.{In, Different, Each};
ghost use Rattle.ir_core.specs.Sound.{LineInRange, counts_of, instruction_count};
ghost use Rattle.inline_body.specs.WithBody.{blocks_with_lines, lines_in, numbers_of};

use crate::blocks::BlockLines;
use crate::site::append_lines;
use ir_core::{Func, List};

/// Puts lines at the end of the blocks of their numbers, one block after the other.
pub fn append_to_blocks(caller: &mut Func, block_lines: List<BlockLines>)
    requires there { Each (λ n. In n (block_numbers caller.old.function.blocks)) (numbers_of block_lines) }
    requires in_range { Each (LineInRange (counts_of caller.old.function)) (lines_in block_lines) }
    requires different { Different (line_definitions (lines_in block_lines)) }
    requires undefined { (v : ℕ) → In v (line_definitions (lines_in block_lines))
        → In v (definitions caller.old.function.blocks) → ⊥ }
    requires few { instruction_count caller.old.function.blocks + length (lines_in block_lines) < 2 ^ 32 - 1 }
    requires room { length (lines_in block_lines) ≤ caller.old.room.insts }
    ensures body { caller.new.function
        ≡ record caller.old.function { blocks = blocks_with_lines block_lines caller.old.function.blocks } }
    ensures room { caller.new.room ≡ record caller.old.room { insts = caller.new.room.insts } }
    ensures room_insts { caller.old.room.insts ≤ caller.new.room.insts + length (lines_in block_lines) }
{
    let _ = caller.values();
    for lines_of_block in block_lines.into_vec() {
        append_lines(caller, lines_of_block.block, lines_of_block.lines);
    }
}
