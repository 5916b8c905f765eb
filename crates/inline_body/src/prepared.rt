//! A callee's body prepared for a call, and how it is put into the caller.
ghost use Rattle.std.specs.Prelude.{◌≡◌, ◌<◌, length, slice_get, Some};
ghost use Rattle.ir_semantics.specs.Splice.{Splicing, spliced};
ghost use Rattle.ir_core.specs.Edits.{HasRoom, lines_of};
ghost use Rattle.ir_core.specs.Viewed.{line_of};
ghost use Rattle.inline_body.specs.Prepared.{IsBodyOf, IsMadeOf, IsReady, room_of};

use crate::blocks::{BlockLines, InlinedBlocks};
use crate::parts::SiteParts;
use crate::placing::put_body;
use ir_core::{Callee, Func, InstData, List, Point, Sig, SlotDecl, Ty, Values};

/// A callee's body as it stands in its caller in the place of a call: new declarations, the jump into the body, the
/// site's results (none where the call ends its block), the parameters of the body's first block and of its others, and
/// the lines of all.
#[derive(Drop)]
pub struct PreparedBody {
    pub slots: List<SlotDecl>,
    pub sigs: List<Sig>,
    pub callees: List<Callee>,
    pub types: List<Ty>,
    pub jump: InstData,
    pub results: Values,
    pub first: Values,
    pub block_params: List<Values>,
    pub block_lines: List<BlockLines>,
}

impl PreparedBody {
    /// A body of these parts and blocks, with the declarations that come in.
    pub fn of_parts(
        parts: SiteParts,
        sigs: List<Sig>,
        callees: List<Callee>,
        blocks: InlinedBlocks,
    ) -> PreparedBody
        requires { 0 < length blocks.block_params }
        ensures { IsMadeOf result parts sigs callees blocks }
    {
        let InlinedBlocks {
            block_params,
            block_lines,
        } = blocks;
        let mut block_params = block_params.into_vec();
        let first = block_params.remove(0);
        PreparedBody {
            slots: parts.slots,
            sigs,
            callees,
            types: parts.types,
            jump: parts.jump,
            results: parts.results,
            first,
            block_params: List::from_vec(block_params),
            block_lines,
        }
    }
}

/// Puts a prepared body in the place of a plain call, and answers the call: the function is then the splice. No memory
/// is taken.
pub fn put_within(caller: &mut Func, site: Point, body: PreparedBody) -> InstData
    requires room { HasRoom (room_of body) caller.old.room }
    requires ready { IsReady caller.old.function site body }
    ensures spliced { (p : Splicing) → IsBodyOf p caller.old.function site body → caller.new.function ≡ spliced p }
    ensures call { slice_get (lines_of site.block caller.old.function.blocks) site.index ≡ Some (line_of result) }
{
    let _ = caller.values();
    let PreparedBody {
        slots,
        sigs,
        callees,
        types,
        jump,
        results,
        first,
        block_params,
        block_lines,
    } = body;
    caller.append(slots, sigs, callees, types);
    put_body(
        caller,
        site,
        jump,
        results,
        first,
        block_params,
        block_lines,
    )
}
