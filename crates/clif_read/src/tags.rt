//! Debug tags.

ghost use Rattle.std.specs.Prelude.{◌<◌, length, IfOk};
ghost use Rattle.token_reader.specs.Reading.{Gives, same};
ghost use Rattle.clif_read.specs.Tags as spec;

use crate::raw::RawTag;
use clif_words::Class;
use std::alloc::Global;
use token_reader::{Items, Reader, Stop, read_items, read_number};

/// A number, or a slot.
#[tactic(auto, unfolding(crate::specs::Tags::debug_tag_at))]
fn read_debug_tag(reader: &mut Reader<'_>) -> Result<RawTag, Stop>
    ensures is { Gives same reader.new result (spec.debug_tag_at reader.old) }
    ensures shorter { IfOk result (λ _. length reader.new < length reader.old) }
{
    if reader.next_is_either(Class::Unsigned, Class::Signed) {
        Ok(RawTag::User(read_number(reader)?))
    } else {
        Ok(RawTag::Slot(reader.take(Class::Slot)?))
    }
}

struct TagItems;

impl Items<RawTag> for TagItems {
    ghost item_at = { λ _. spec.debug_tag_at };

    #[inline]
    fn read_item(&self, _alloc: Global, reader: &mut Reader<'_>) -> Result<RawTag, Stop> {
        read_debug_tag(reader)
    }
}

/// `<7, ss0>`
#[tactic(auto, unfolding(crate::specs::Tags::debug_tags_at))]
pub(crate) fn read_debug_tags(alloc: Global, reader: &mut Reader<'_>) -> Result<Vec<RawTag>, Stop>
    ensures is { Gives (λ x. x.items) reader.new result (spec.debug_tags_at reader.old) }
    ensures shorter { IfOk result (λ _. length reader.new < length reader.old) }
{
    reader.take(Class::Less)?;
    let tags = read_items(alloc, reader, &TagItems)?;
    reader.take(Class::Greater)?;
    Ok(tags)
}
