//! Numbers, and lists of them.

ghost use Rattle.std.specs.Prelude.{◌≡◌, ◌<◌, ◌≤◌, ℤ, length, IfOk};
ghost use Rattle.token_reader.specs.Reading.{Gives, same};
ghost use Rattle.script_text.specs.Symbols.{lexeme_of};
ghost use Rattle.script_text.specs.Reading as spec;

use crate::commas::{Items, read_items, read_list};
use crate::reader::Reader;
use crate::symbol::Symbol;
use crate::terminal::Terminal;
use std::alloc::Global;
use token_reader::Stop;

/// A number.
#[tactic(auto, unfolding(crate::specs::Reading::number_at))]
fn read_number(reader: &mut Reader<'_>) -> Result<Symbol, Stop>
    ensures is { Gives lexeme_of reader.new result (spec.number_at reader.old) }
    ensures shorter { IfOk result (λ _. length reader.new < length reader.old) }
{
    if reader.next_is(Terminal::Byte) {
        reader.take(Terminal::Byte)
    } else if reader.next_is(Terminal::Large) {
        reader.take(Terminal::Large)
    } else {
        reader.take(Terminal::Negative)
    }
}

/// What a number is.
#[tactic(auto, unfolding(crate::specs::Reading::value_at))]
fn read_value(reader: &mut Reader<'_>) -> Result<i128, Stop>
    ensures is { Gives same reader.new result (spec.value_at reader.old) }
    ensures shorter { IfOk result (λ _. length reader.new < length reader.old) }
{
    let number = read_number(reader)?;
    Ok(number.amount)
}

/// What a number is modulo 2^64, as a payload.
#[tactic(auto, unfolding(crate::specs::Reading::payload_at))]
pub(crate) fn read_payload(reader: &mut Reader<'_>) -> Result<u64, Stop>
    ensures is { Gives same reader.new result (spec.payload_at reader.old) }
    ensures shorter { IfOk result (λ _. length reader.new < length reader.old) }
{
    let number = read_number(reader)?;
    Ok(number.number)
}

struct ValueItems;

impl Items<i128> for ValueItems {
    ghost Seen = { ℤ };

    ghost seen = { same };

    ghost item_at = { λ _. spec.value_at };

    fn read_item(&self, _alloc: Global, reader: &mut Reader<'_>) -> Result<i128, Stop> {
        read_value(reader)
    }
}

/// The values of a `return`, which are none where no `(` follows.
pub(crate) fn read_returned(alloc: Global, reader: &mut Reader<'_>) -> Result<Vec<i128>, Stop>
    ensures is { Gives (λ x. x.items) reader.new result
        (spec.listed_at Terminal.LeftParen Terminal.RightParen spec.value_at reader.old) }
    ensures shorter { IfOk result (λ _. length reader.new ≤ length reader.old) }
{
    read_list(
        alloc,
        reader,
        &ValueItems,
        Terminal::LeftParen,
        Terminal::RightParen,
    )
}

/// Numbers joined by commas, or none.
#[tactic(auto, unfolding(crate::specs::Reading::number_list_at))]
pub(crate) fn read_numbers(alloc: Global, reader: &mut Reader<'_>) -> Result<Vec<i128>, Stop>
    ensures { Gives (λ x. x.items) reader.new result (spec.number_list_at reader.old) }
{
    if reader.next_is_number() {
        read_items(alloc, reader, &ValueItems)
    } else {
        Ok(Vec::new(alloc))
    }
}
