//! Exception tables.

ghost use Rattle.std.specs.Prelude.{◌≢◌, ◌<◌, length, IfOk, IfErr};
ghost use Rattle.token_reader.specs.declared.stop.Stop.TheVariants.{NoMemory};
ghost use Rattle.token_reader.specs.Reading.{Gives, same};
ghost use Rattle.clif_insts.specs.Tables as spec;

use crate::raw::RawEntry;
use crate::targets::{TargetRole, read_target};
use clif_words::Class;
use ir_core::{Boxed, List};
use std::alloc::Global;
use token_reader::{Items, RawName, Reader, Stop, read_items};

/// `tagN` or `default`.
#[tactic(auto, unfolding(crate::specs::Tables::entry_tag_at))]
pub(crate) fn read_entry_tag(reader: &mut Reader<'_>) -> Result<Option<RawName>, Stop>
    ensures is { Gives same reader.new result (spec.entry_tag_at reader.old) }
    ensures no_memory { IfErr result (λ e. e ≢ NoMemory) }
    ensures shorter { IfOk result (λ _. length reader.new < length reader.old) }
{
    if reader.next_is(Class::Tag) {
        Ok(Some(reader.take(Class::Tag)?))
    } else if reader.next_is(Class::Default) {
        reader.take(Class::Default)?;
        Ok(None)
    } else {
        Err(if reader.next_is(Class::Context) {
            Stop::Unsupported
        } else {
            Stop::Syntax
        })
    }
}

/// An entry of an exception table.
#[tactic(auto, unfolding(crate::specs::Tables::entry_at))]
pub(crate) fn read_entry(alloc: Global, reader: &mut Reader<'_>) -> Result<RawEntry, Stop>
    ensures is { Gives same reader.new result (spec.entry_at reader.old) }
    ensures shorter { IfOk result (λ _. length reader.new < length reader.old) }
{
    let tag = read_entry_tag(reader)?;
    reader.take(Class::Colon)?;
    let target = read_target(alloc, reader, TargetRole::Handler)?;
    Ok(RawEntry { tag, target })
}

struct EntryItems;

impl Items<RawEntry> for EntryItems {
    ghost item_at = { λ _. spec.entry_at };

    #[inline]
    fn read_item(&self, alloc: Global, reader: &mut Reader<'_>) -> Result<RawEntry, Stop> {
        read_entry(alloc, reader)
    }
}

#[tactic(auto, unfolding(crate::specs::Tables::table_at))]
pub(crate) fn read_table(alloc: Global, reader: &mut Reader<'_>) -> Result<Vec<RawEntry>, Stop>
    ensures is { Gives (λ x. x.items) reader.new result (spec.table_at reader.old) }
    ensures shorter { IfOk result (λ _. length reader.new < length reader.old) }
{
    reader.take(Class::LeftBracket)?;
    let list = if reader.next_is_one_of(Class::Tag, Class::Default, Class::Context) {
        read_items(alloc, reader, &EntryItems)?
    } else {
        Vec::new(alloc)
    };
    reader.take(Class::RightBracket)?;
    Ok(list)
}

/// A table behind a pointer: so an instruction is no larger for it.
pub(crate) fn read_boxed_table(
    alloc: Global,
    reader: &mut Reader<'_>,
) -> Result<Boxed<List<RawEntry>>, Stop>
    ensures is { Gives same reader.new result (spec.table_at reader.old) }
    ensures shorter { IfOk result (λ _. length reader.new < length reader.old) }
{
    let entries = read_table(alloc, reader)?;
    Ok(Boxed::new(alloc, List::from_vec(entries))?)
}
