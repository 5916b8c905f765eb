//! A prepared body put in the place of a call that ends its block.
ghost use Rattle.std.specs.Prelude.{◌≡◌, slice_get, Some};
ghost use Rattle.ir_semantics.specs.Splice.{Splicing, spliced};
ghost use Rattle.ir_core.specs.Edits.{HasRoom, lines_of};
ghost use Rattle.ir_core.specs.Viewed.{line_of};
ghost use Rattle.inline_body.specs.Prepared.{room_of};
ghost use Rattle.inline_ends.specs.LastBody.{IsLastBodyOf, IsLastReady};

use crate::placing::put_last_body;
use inline_body::PreparedBody;
use ir_core::{Func, InstData, Point};

/// Puts a prepared body in the place of a call that ends its block, and answers the call: the function is then the
/// splice. No memory is taken.
pub fn put_last(caller: &mut Func, site: Point, body: PreparedBody) -> InstData
    requires room { HasRoom (room_of body) caller.old.room }
    requires ready { IsLastReady caller.old.function site body }
    ensures spliced { (p : Splicing) → IsLastBodyOf p caller.old.function site body → caller.new.function ≡ spliced p }
    ensures call { slice_get (lines_of site.block caller.old.function.blocks) site.index ≡ Some (line_of result) }
{
    let _ = caller.values();
    let PreparedBody {
        slots,
        sigs,
        callees,
        types,
        jump,
        results: _,
        first,
        block_params,
        block_lines,
    } = body;
    caller.append(slots, sigs, callees, types);
    put_last_body(caller, site, jump, first, block_params, block_lines)
}
