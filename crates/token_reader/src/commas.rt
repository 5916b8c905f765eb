//! Items with commas between them.

ghost use Rattle.std.specs.Prelude.{List, ◌<◌, ◌≤◌, length, IfOk};
ghost use Rattle.grammar.specs.Rules.{Lexeme, Out};
ghost use Rattle.token_reader.specs.Reading.{Gives, same};
ghost use Rattle.token_reader.specs.Reading as spec;

use crate::lists::start_list_in_room;
use crate::reader::Reader;
use crate::stop::Stop;
use clif_words::Class;
use ir_core::Few;
use std::alloc::Global;

/// Items of a kind, which are read one by one.
pub trait Items<T> {
    /// The item that stands in front of these tokens, read from left to right.
    ghost item_at: { Self → List Lexeme → Out T };

    /// Reads an item.
    fn read_item(&self, alloc: Global, reader: &mut Reader<'_>) -> Result<T, Stop>
        ensures is { Gives same reader.new result (item_at self.now reader.old) }
        ensures shorter { IfOk result (λ _. length reader.new < length reader.old) };
}

#[tactic(auto, unfolding(crate::specs::Reading::comma_at))]
#[inline]
fn read_next_item<T, I: Items<T>>(
    alloc: Global,
    reader: &mut Reader<'_>,
    items: &I,
) -> Result<T, Stop>
    ensures is { Gives same reader.new result (spec.comma_at (I.item_at items.now) reader.old) }
    ensures shorter { IfOk result (λ _. length reader.new < length reader.old) }
{
    reader.take(Class::Comma)?;
    items.read_item(alloc, reader)
}

/// Items behind commas, after those in front.
pub fn read_more_items<T: Drop, I: Items<T>>(
    alloc: Global,
    reader: &mut Reader<'_>,
    items: &I,
    front: Vec<T>,
) -> Result<Vec<T>, Stop>
    ensures is { Gives (λ x. x.items) reader.new result (spec.more_at (I.item_at items.now) front.items reader.old) }
    ensures shorter { IfOk result (λ _. length reader.new ≤ length reader.old) }
{
    let mut list = front;
    'list: while reader.next_is(Class::Comma) {
        let item = read_next_item(alloc, reader, items)?;
        list.push(item)?;
    }
    Ok(list)
}

/// Items joined by commas, one at least.
#[tactic(auto, unfolding(crate::specs::Reading::commas_at))]
pub fn read_items<T: Drop, I: Items<T>>(
    alloc: Global,
    reader: &mut Reader<'_>,
    items: &I,
) -> Result<Vec<T>, Stop>
    ensures is { Gives (λ x. x.items) reader.new result (spec.commas_at (I.item_at items.now) reader.old) }
    ensures shorter { IfOk result (λ _. length reader.new < length reader.old) }
{
    let first = items.read_item(alloc, reader)?;
    let room = if reader.next_is(Class::Comma) { 2 } else { 1 };
    let front = start_list_in_room(alloc, first, room)?;
    read_more_items(alloc, reader, items, front)
}

/// Items joined by commas, one at least. One takes no memory but the list's own.
#[tactic(auto, unfolding(crate::specs::Reading::commas_at))]
pub fn read_few_items<T: Drop, I: Items<T>>(
    alloc: Global,
    reader: &mut Reader<'_>,
    items: &I,
) -> Result<Few<T>, Stop>
    ensures is { Gives same reader.new result (spec.commas_at (I.item_at items.now) reader.old) }
    ensures shorter { IfOk result (λ _. length reader.new < length reader.old) }
{
    let first = items.read_item(alloc, reader)?;
    if reader.next_is(Class::Comma) {
        let front = start_list_in_room(alloc, first, 2)?;
        Ok(Few::from_vec(read_more_items(alloc, reader, items, front)?))
    } else {
        Ok(Few::one(first))
    }
}
