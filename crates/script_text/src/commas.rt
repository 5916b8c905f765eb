//! Items with commas between them.

ghost use Rattle.std.specs.Prelude.{List, ◌<◌, ◌≤◌, length, map, IfOk};
ghost use Rattle.grammar.specs.Rules.{Lexeme, Out};
ghost use Rattle.token_reader.specs.Reading.{Gives};
ghost use Rattle.script_text.specs.Reading as spec;

use crate::reader::Reader;
use crate::terminal::Terminal;
use std::alloc::Global;
use token_reader::{Stop, start_list};

/// Items of a kind, which are read one by one.
pub trait Items<T> {
    /// What contracts see an item as.
    ghost Seen: { Type 0 };

    ghost seen: { T → Seen };

    /// The item that stands in front of these tokens, read from left to right.
    ghost item_at: { Self → List Lexeme → Out Seen };

    /// Reads an item.
    fn read_item(&self, alloc: Global, reader: &mut Reader<'_>) -> Result<T, Stop>
        ensures is { Gives seen reader.new result (item_at self.now reader.old) }
        ensures shorter { IfOk result (λ _. length reader.new < length reader.old) };
}

#[tactic(auto, unfolding(crate::specs::Reading::comma_at))]
fn read_next_item<T, I: Items<T>>(
    alloc: Global,
    reader: &mut Reader<'_>,
    items: &I,
) -> Result<T, Stop>
    ensures is { Gives I.seen reader.new result (spec.comma_at (I.item_at items.now) reader.old) }
    ensures shorter { IfOk result (λ _. length reader.new < length reader.old) }
{
    reader.take(Terminal::Comma)?;
    items.read_item(alloc, reader)
}

/// Items behind commas, after those in front.
fn read_more_items<T: Drop, I: Items<T>>(
    alloc: Global,
    reader: &mut Reader<'_>,
    items: &I,
    front: Vec<T>,
) -> Result<Vec<T>, Stop>
    ensures is { Gives (λ x. map I.seen x.items) reader.new result
        (spec.more_at (I.item_at items.now) (map I.seen front.items) reader.old) }
    ensures shorter { IfOk result (λ _. length reader.new ≤ length reader.old) }
{
    let mut list = front;
    'list: while reader.next_is(Terminal::Comma) {
        let item = read_next_item(alloc, reader, items)?;
        list.push(item)?;
    }
    Ok(list)
}

/// Items joined by commas, one at least.
#[tactic(auto, unfolding(crate::specs::Reading::commas_at))]
pub fn read_items<T: Drop, I: Items<T>>(
    alloc: Global,
    reader: &mut Reader<'_>,
    items: &I,
) -> Result<Vec<T>, Stop>
    ensures is { Gives (λ x. map I.seen x.items) reader.new result (spec.commas_at (I.item_at items.now) reader.old) }
    ensures shorter { IfOk result (λ _. length reader.new < length reader.old) }
{
    let first = items.read_item(alloc, reader)?;
    let front = start_list(alloc, first)?;
    read_more_items(alloc, reader, items, front)
}

/// Items joined by commas, between two tokens.
#[tactic(auto, unfolding(crate::specs::Reading::between_at))]
fn read_items_between<T: Drop, I: Items<T>>(
    alloc: Global,
    reader: &mut Reader<'_>,
    items: &I,
    left: Terminal,
    right: Terminal,
) -> Result<Vec<T>, Stop>
    ensures is { Gives (λ x. map I.seen x.items) reader.new result
        (spec.between_at left right (spec.commas_at (I.item_at items.now)) reader.old) }
    ensures shorter { IfOk result (λ _. length reader.new < length reader.old) }
{
    reader.take(left)?;
    let list = read_items(alloc, reader, items)?;
    reader.take(right)?;
    Ok(list)
}

/// Items joined by commas, between two tokens, or none where the first of the two is missing.
#[tactic(auto, unfolding(crate::specs::Reading::listed_at))]
pub fn read_list<T: Drop, I: Items<T>>(
    alloc: Global,
    reader: &mut Reader<'_>,
    items: &I,
    left: Terminal,
    right: Terminal,
) -> Result<Vec<T>, Stop>
    ensures is { Gives (λ x. map I.seen x.items) reader.new result
        (spec.listed_at left right (I.item_at items.now) reader.old) }
    ensures shorter { IfOk result (λ _. length reader.new ≤ length reader.old) }
{
    if reader.next_is(left) {
        read_items_between(alloc, reader, items, left, right)
    } else {
        Ok(Vec::new(alloc))
    }
}
