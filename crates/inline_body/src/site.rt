//! A call taken out of its block, with a block in its place and one behind it.
ghost use Rattle.std.specs.Prelude.{◌≡◌, ℕ, ◌+◌, ◌<◌, ◌≤◌, ◌^◌, ◌-◌, List, length, map, Some, slice_get};
ghost use Rattle.ir_core.specs.Lookup.{block_numbers, definitions, line_definitions};
ghost use Rattle.ir_core.specs.Lists.{In, Different, Below, Each};
ghost use Rattle.ir_core.specs.Sound.{LineInRange, counts_of, instruction_count};
ghost use Rattle.ir_core.specs.Module.{Line};
ghost use Rattle.ir_core.specs.Edits.{IsPoint, lines_of, at_block};
ghost use Rattle.ir_core.specs.Viewed.{line_of};
ghost use Rattle.inline_body.specs.Opened.{taken, parted, with_more};

use ir_core::{Block, Func, InstData, List, Point, Values};

/// What an opened site has: the call, the block in its place, and the block behind that.
#[derive(Drop)]
pub struct Opened {
    pub call: InstData,
    pub first: Block,
    pub after: Block,
}

/// Takes the call out of its block. A new block behind it has the lines that stood behind the call.
fn take_call(caller: &mut Func, site: Point, params: Values) -> (InstData, Block)
    requires there { IsPoint caller.old.function site }
    requires fits { site.index + 1 < 2 ^ 32 }
    requires room { 0 < caller.old.room.blocks }
    requires few { length caller.old.function.blocks + 1 < 2 ^ 32 - 1 }
    requires declared { Below (length caller.old.function.types) params }
    requires different { Different params }
    requires undefined { (v : ℕ) → In v params → In v (definitions caller.old.function.blocks) → ⊥ }
    ensures body { caller.new.function
        ≡ record caller.old.function
        { blocks = taken site.block site.index result.1 params caller.old.function.blocks } }
    ensures call { slice_get (lines_of site.block caller.old.function.blocks) site.index ≡ Some (line_of result.0) }
    ensures number { result.1 ≡ length caller.old.function.blocks }
    ensures room { caller.old.room ≡ record caller.new.room { blocks = caller.new.room.blocks + 1 } }
{
    let first = caller.insert_block(site.block, params);
    caller.cut(site.block, site.index + 1, first);
    let call = caller.take_last(site.block);
    (call, first)
}

/// Moves the lines of a block to a new block behind it.
fn move_lines(caller: &mut Func, block: Block, params: Values) -> Block
    requires there { In block (block_numbers caller.old.function.blocks) }
    requires room { 0 < caller.old.room.blocks }
    requires few { length caller.old.function.blocks + 1 < 2 ^ 32 - 1 }
    requires declared { Below (length caller.old.function.types) params }
    requires different { Different params }
    requires undefined { (v : ℕ) → In v params → In v (definitions caller.old.function.blocks) → ⊥ }
    ensures body { caller.new.function
        ≡ record caller.old.function { blocks = parted block result params caller.old.function.blocks } }
    ensures number { result ≡ length caller.old.function.blocks }
    ensures room { caller.old.room ≡ record caller.new.room { blocks = caller.new.room.blocks + 1 } }
{
    let after = caller.insert_block(block, params);
    caller.cut(block, 0, after);
    after
}

/// Takes the call out of its block, whose place `first` takes; what stood behind the call goes to a block behind that
/// one, whose parameters are the call's results.
pub fn open(caller: &mut Func, site: Point, params: Values, results: Values) -> Opened
    requires there { IsPoint caller.old.function site }
    requires fits { site.index + 1 < 2 ^ 32 }
    requires room { 1 < caller.old.room.blocks }
    requires few { length caller.old.function.blocks + 2 < 2 ^ 32 - 1 }
    requires declared { Below (length caller.old.function.types) params }
    requires different { Different params }
    requires undefined { (v : ℕ) → In v params → In v (definitions caller.old.function.blocks) → ⊥ }
    requires are_results { (l : Line) → slice_get (lines_of site.block caller.old.function.blocks) site.index ≡ Some l
        → results ≡ l.results }
    ensures body { caller.new.function
        ≡ record caller.old.function {
          blocks = parted result.first result.after results
              (taken site.block site.index result.first params caller.old.function.blocks);
        } }
    ensures call { slice_get (lines_of site.block caller.old.function.blocks) site.index ≡ Some (line_of result.call) }
    ensures first { result.first ≡ length caller.old.function.blocks }
    ensures after { result.after ≡ length caller.old.function.blocks + 1 }
    ensures room { caller.old.room ≡ record caller.new.room { blocks = caller.new.room.blocks + 2 } }
{
    let _ = caller.values();
    let (call, first) = take_call(caller, site, params);
    let after = move_lines(caller, first, results);
    Opened { call, first, after }
}

/// Appends these instructions to a block. While no other block grows each takes constant time, where the block is empty
/// without a place of its own, or stands at the arena's end.
pub fn append_lines(caller: &mut Func, block: Block, added: List<InstData>)
    requires there { In block (block_numbers caller.old.function.blocks) }
    requires in_range { Each (LineInRange (counts_of caller.old.function)) (map line_of added) }
    requires different { Different (line_definitions (map line_of added)) }
    requires undefined { (v : ℕ) → In v (line_definitions (map line_of added))
        → In v (definitions caller.old.function.blocks) → ⊥ }
    requires few { instruction_count caller.old.function.blocks + length added < 2 ^ 32 - 1 }
    requires room { length added ≤ caller.old.room.insts }
    ensures body { caller.new.function
        ≡ record caller.old.function
        { blocks = at_block block (with_more (map line_of added)) caller.old.function.blocks } }
    ensures room { caller.new.room ≡ record caller.old.room { insts = caller.new.room.insts } }
    ensures room_insts { caller.old.room.insts ≤ caller.new.room.insts + length added }
{
    let _ = caller.values();
    for line in added.into_vec() {
        caller.put_inst(block, line);
    }
}
