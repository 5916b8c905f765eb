//! Blocks behind a block.
ghost use Rattle.std.specs.Prelude.{◌≡◌, ℕ, ◌+◌, ◌-◌, ◌<◌, ◌≤◌, ◌^◌, length};
ghost use Rattle.ir_core.specs.Lookup.{block_numbers, definitions};
ghost use Rattle.ir_core.specs.Lists.{In, Different, Below};
ghost use Rattle.inline_body.specs.WithBody.{behind, empty_from, all_of};

use ir_core::{Block, Func, List, Values};

/// Puts empty blocks with these parameters directly behind a block, in order.
pub fn insert_blocks(caller: &mut Func, first: Block, block_params: List<Values>)
    requires there { In first (block_numbers caller.old.function.blocks) }
    requires room { length block_params ≤ caller.old.room.blocks }
    requires few { length caller.old.function.blocks + length block_params < 2 ^ 32 - 1 }
    requires declared { Below (length caller.old.function.types) (all_of block_params) }
    requires different { Different (all_of block_params) }
    requires undefined { (v : ℕ) → In v (all_of block_params) → In v (definitions caller.old.function.blocks) → ⊥ }
    ensures body { caller.new.function
        ≡ record caller.old.function {
          blocks = behind first (empty_from (length caller.old.function.blocks) block_params)
              caller.old.function.blocks;
        } }
    ensures room { caller.new.room ≡ record caller.old.room { blocks = caller.new.room.blocks } }
    ensures room_blocks { caller.old.room.blocks ≤ caller.new.room.blocks + length block_params }
{
    let _ = caller.values();
    let mut at = first;
    for params in block_params.into_vec() {
        at = caller.insert_block(at, params);
    }
}
