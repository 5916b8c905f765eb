//! A body put in the place of a call that ends its block.
ghost use Rattle.std.specs.Prelude.{◌≡◌, ℕ, ◌+◌, ◌-◌, ◌<◌, ◌≤◌, ◌^◌, ◌∷◌, [], length, slice_get, Some};
ghost use Rattle.ir_core.specs.Module.{Line};
ghost use Rattle.ir_core.specs.Lookup.{block_numbers, definitions, line_definitions};
ghost use Rattle.ir_core.specs.Lists.{In, Different, Below, Each};
ghost use Rattle.ir_core.specs.Sound.{LineInRange, instruction_count};
ghost use Rattle.ir_core.specs.Edits.{IsPoint, lines_of};
ghost use Rattle.ir_core.specs.Viewed.{line_of};
ghost use Rattle.inline_body.specs.Inlined.{blocks_from};
ghost use Rattle.inline_ends.specs.Ending.{with_last_body};
ghost use Rattle.inline_body.specs.WithBody.{empty_from, all_of, lines_in, numbers_of, counts_with};

use inline_body::{BlockLines, append_to_blocks, insert_blocks};
use ir_core::{Func, InstData, List, Point, Values};

/// Puts a body in the place of a call that ends its block, and answers the call. The block ends in the jump. The body's
/// blocks stand behind it: the first has the parameters `first`, the others those of `block_params`. It takes no
/// memory.
pub fn put_last_body(
    caller: &mut Func,
    site: Point,
    jump: InstData,
    first: Values,
    block_params: List<Values>,
    block_lines: List<BlockLines>,
) -> InstData
    requires there { IsPoint caller.old.function site }
    requires last { site.index + 1 ≡ length (lines_of site.block caller.old.function.blocks) }
    requires room_blocks { length block_params + 1 ≤ caller.old.room.blocks }
    requires room_insts { length (lines_in block_lines) + 1 ≤ caller.old.room.insts }
    requires few_blocks { length caller.old.function.blocks + length block_params + 1 < 2 ^ 32 - 1 }
    requires few_lines { instruction_count caller.old.function.blocks + length (lines_in block_lines) + 1 < 2 ^ 32 - 1 }
    requires numbers { numbers_of block_lines ≡ length caller.old.function.blocks
        ∷ block_numbers (empty_from (length caller.old.function.blocks + 1) block_params) }
    requires declared { Below (length caller.old.function.types) (all_of (first ∷ block_params)) }
    requires different { Different (all_of (first ∷ block_params)) }
    requires undefined { (v : ℕ) → In v (all_of (first ∷ block_params)) → In v (definitions caller.old.function.blocks)
        → ⊥ }
    requires jump { LineInRange (counts_with caller.old.function (length block_params + 1)) (line_of jump) }
    requires jump_results { jump.results ≡ [] }
    requires lines { Each (LineInRange (counts_with caller.old.function (length block_params + 1)))
        (lines_in block_lines) }
    requires lines_different { Different (line_definitions (lines_in block_lines)) }
    requires lines_undefined { (v : ℕ) → In v (line_definitions (lines_in block_lines))
        → In v (definitions caller.old.function.blocks) → ⊥ }
    requires apart { (v : ℕ) → In v (line_definitions (lines_in block_lines)) → In v (all_of (first ∷ block_params))
        → ⊥ }
    ensures body { caller.new.function
        ≡ record caller.old.function {
          blocks = with_last_body site.block site.index (line_of jump)
              (blocks_from (first ∷ block_params) block_lines) caller.old.function.blocks;
        } }
    ensures call { slice_get (lines_of site.block caller.old.function.blocks) site.index ≡ Some (line_of result) }
{
    let block = site.block;
    let _ = caller.values();
    let call = caller.take_last(block);
    let _ = caller.values();
    let body = caller.insert_block(block, first);
    insert_blocks(caller, body, block_params);
    let _ = caller.values();
    caller.put_inst(block, jump);
    append_to_blocks(caller, block_lines);
    call
}
