//! Replies.

ghost use Rattle.std.specs.Prelude.{◌≡◌, ◌<◌, length, map, IfOk};
ghost use Rattle.token_reader.specs.Reading.{Gives};
ghost use Rattle.host_script.specs.Script.{reply_of};
ghost use Rattle.ir_semantics.specs.Machine as run;
ghost use Rattle.script_text.specs.Reading as spec;

use crate::acts::read_act;
use crate::commas::{Items, read_items};
use crate::reader::Reader;
use crate::writes::read_written_bytes;
use host_script::Reply;
use ir_core::List;
use std::alloc::Global;
use token_reader::Stop;

/// What a reply does, and its writes behind it.
#[tactic(auto, unfolding(crate::specs::Reading::reply_at))]
fn read_reply(alloc: Global, reader: &mut Reader<'_>) -> Result<Reply, Stop>
    ensures is { Gives reply_of reader.new result (spec.reply_at reader.old) }
    ensures shorter { IfOk result (λ _. length reader.new < length reader.old) }
{
    let act = read_act(alloc, reader)?;
    let writes = List::from_vec(read_written_bytes(alloc, reader)?);
    Ok(Reply { act, writes })
}

struct ReplyItems;

impl Items<Reply> for ReplyItems {
    ghost Seen = { run.Reply };

    ghost seen = { reply_of };

    ghost item_at = { λ _. spec.reply_at };

    fn read_item(&self, alloc: Global, reader: &mut Reader<'_>) -> Result<Reply, Stop> {
        read_reply(alloc, reader)
    }
}

/// Replies joined by commas, or none.
#[tactic(auto, unfolding(crate::specs::Reading::script_at))]
pub(crate) fn read_replies(alloc: Global, reader: &mut Reader<'_>) -> Result<Vec<Reply>, Stop>
    ensures { Gives (λ x. map reply_of x.items) reader.new result (spec.script_at reader.old) }
{
    if reader.next_is_reply() {
        read_items(alloc, reader, &ReplyItems)
    } else {
        Ok(Vec::new(alloc))
    }
}
