//! The writes of a reply.

ghost use Rattle.std.specs.Prelude.{◌≡◌, ◌<◌, ◌≤◌, ℕ, length, IfOk};
ghost use Rattle.token_reader.specs.Reading.{Gives, same};
ghost use Rattle.script_text.specs.Symbols.{lexeme_of};
ghost use Rattle.script_text.specs.Reading as spec;

use crate::commas::{Items, read_list};
use crate::reader::Reader;
use crate::symbol::Symbol;
use crate::terminal::Terminal;
use std::alloc::Global;
use token_reader::Stop;

/// A number that is not negative.
#[tactic(auto, unfolding(crate::specs::Reading::address_at))]
fn read_address(reader: &mut Reader<'_>) -> Result<Symbol, Stop>
    ensures is { Gives lexeme_of reader.new result (spec.address_at reader.old) }
    ensures shorter { IfOk result (λ _. length reader.new < length reader.old) }
{
    if reader.next_is(Terminal::Byte) {
        reader.take(Terminal::Byte)
    } else {
        reader.take(Terminal::Large)
    }
}

/// An address and a byte, as `16: 255`.
#[tactic(auto, unfolding(crate::specs::Reading::write_at))]
fn read_written_byte(reader: &mut Reader<'_>) -> Result<(u64, u8), Stop>
    ensures is { Gives same reader.new result (spec.write_at reader.old) }
    ensures shorter { IfOk result (λ _. length reader.new < length reader.old) }
{
    let address = read_address(reader)?;
    reader.take(Terminal::Colon)?;
    let byte = reader.take(Terminal::Byte)?;
    Ok((address.number, byte.number as u8))
}

struct WriteItems;

impl Items<(u64, u8)> for WriteItems {
    ghost Seen = { ℕ × ℕ };

    ghost seen = { same };

    ghost item_at = { λ _. spec.write_at };

    fn read_item(&self, _alloc: Global, reader: &mut Reader<'_>) -> Result<(u64, u8), Stop> {
        read_written_byte(reader)
    }
}

/// The writes of a reply, which are none where no `[` follows.
pub(crate) fn read_written_bytes(
    alloc: Global,
    reader: &mut Reader<'_>,
) -> Result<Vec<(u64, u8)>, Stop>
    ensures is { Gives (λ x. x.items) reader.new result
        (spec.listed_at Terminal.LeftBracket Terminal.RightBracket spec.write_at reader.old) }
    ensures shorter { IfOk result (λ _. length reader.new ≤ length reader.old) }
{
    read_list(
        alloc,
        reader,
        &WriteItems,
        Terminal::LeftBracket,
        Terminal::RightBracket,
    )
}
