//! Values behind one another, and the arguments of a call.

ghost use Rattle.std.specs.Prelude.{◌∷◌, [], ◌<◌, ◌≤◌, length, IfOk};
ghost use Rattle.clif_words.specs.declared.class.Class.TheVariants as classes;
ghost use Rattle.token_reader.specs.Reading.{Gives, same, name_at};
ghost use Rattle.clif_insts.specs.Arguments as spec;

use clif_words::Class;
use ir_core::Few;
use std::alloc::Global;
use token_reader::{
    Items, RawName, Reader, Stop, read_few_items, read_items, read_more_items, start_list_in_room,
};

struct ValueItems;

impl Items<RawName> for ValueItems {
    ghost item_at = { λ _. name_at classes.Value };

    #[inline]
    fn read_item(&self, _alloc: Global, reader: &mut Reader<'_>) -> Result<RawName, Stop> {
        reader.take(Class::Value)
    }
}

/// Those behind commas, after those in front.
pub fn read_more_values(
    alloc: Global,
    reader: &mut Reader<'_>,
    front: Vec<RawName>,
) -> Result<Vec<RawName>, Stop>
    ensures is { Gives (λ x. x.items) reader.new result (spec.more_values_at front.items reader.old) }
    ensures shorter { IfOk result (λ _. length reader.new ≤ length reader.old) }
{
    read_more_items(alloc, reader, &ValueItems, front)
}

/// This value and those behind commas after it.
pub fn read_few_more_values(
    alloc: Global,
    reader: &mut Reader<'_>,
    first: RawName,
) -> Result<Few<RawName>, Stop>
    ensures is { Gives same reader.new result (spec.more_values_at (first ∷ []) reader.old) }
    ensures shorter { IfOk result (λ _. length reader.new ≤ length reader.old) }
{
    if reader.next_is(Class::Comma) {
        let front = start_list_in_room(alloc, first, 2)?;
        Ok(Few::from_vec(read_more_values(alloc, reader, front)?))
    } else {
        Ok(Few::one(first))
    }
}

/// Values.
pub fn read_values(alloc: Global, reader: &mut Reader<'_>) -> Result<Vec<RawName>, Stop>
    ensures is { Gives (λ x. x.items) reader.new result (spec.values_at reader.old) }
    ensures shorter { IfOk result (λ _. length reader.new < length reader.old) }
{
    read_items(alloc, reader, &ValueItems)
}

/// Values, of which one takes no memory but the list's own.
fn read_few_values(alloc: Global, reader: &mut Reader<'_>) -> Result<Few<RawName>, Stop>
    ensures is { Gives same reader.new result (spec.values_at reader.old) }
    ensures shorter { IfOk result (λ _. length reader.new < length reader.old) }
{
    read_few_items(alloc, reader, &ValueItems)
}

/// The arguments of a call.
#[tactic(auto, unfolding(crate::specs::Arguments::args_at))]
pub(crate) fn read_args(alloc: Global, reader: &mut Reader<'_>) -> Result<Vec<RawName>, Stop>
    ensures is { Gives (λ x. x.items) reader.new result (spec.args_at reader.old) }
    ensures shorter { IfOk result (λ _. length reader.new < length reader.old) }
{
    reader.take(Class::LeftParen)?;
    let list = if reader.next_is(Class::Value) {
        read_values(alloc, reader)?
    } else {
        Vec::new(alloc)
    };
    reader.take(Class::RightParen)?;
    Ok(list)
}

/// The arguments of a call, of which one takes no memory but the list's own.
#[tactic(auto, unfolding(crate::specs::Arguments::args_at))]
pub(crate) fn read_few_args(alloc: Global, reader: &mut Reader<'_>) -> Result<Few<RawName>, Stop>
    ensures is { Gives same reader.new result (spec.args_at reader.old) }
    ensures shorter { IfOk result (λ _. length reader.new < length reader.old) }
{
    reader.take(Class::LeftParen)?;
    let list = if reader.next_is(Class::Value) {
        read_few_values(alloc, reader)?
    } else {
        Few::from_vec(Vec::new(alloc))
    };
    reader.take(Class::RightParen)?;
    Ok(list)
}
