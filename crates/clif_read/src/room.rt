//! Room for the lines of a block.

ghost use Rattle.std.specs.Prelude.{◌≡◌, ◌+◌, ◌≤◌, vec_len, vec_capacity, OnOk};

use crate::raw::RawLine;
use clif_words::Class;
use ir_core::GREATEST_SIZE;
use std::alloc::AllocError;
use token_reader::Reader;

/// For how many lines the list of a block has room at first.
const FIRST_ROOM: usize = 4;

/// From so many lines on a full list gets room for four times as many.
const SEVERAL_LINES: usize = 16;

/// From so many lines on a full list gets room for as many as a function may have.
const MANY_LINES: usize = 16_384;

/// A list of two lines and no more than these keeps the room that is left over, at most as much again: to give it back
/// costs more.
const FEW_LINES: usize = 8;

/// Makes room for a line behind the others, where there is none. A list that grows past 32 MiB by doubling is copied to
/// memory that the system gives anew, where each page is seen for the first time; one that has room for all its lines
/// early is copied while it is small, and pages that it never fills cost nothing.
#[inline]
pub(crate) fn make_room(lines: &mut Vec<RawLine>) -> Result<(), AllocError>
    ensures items { lines.new.items ≡ lines.old.items }
    ensures room { OnOk result (vec_len lines.new + 1 ≤ vec_capacity lines.new) }
{
    if lines.len() < lines.capacity() {
        Ok(())
    } else {
        make_more_room(lines)
    }
}

/// Makes room for more lines behind those of a full list.
#[inline(never)]
fn make_more_room(lines: &mut Vec<RawLine>) -> Result<(), AllocError>
    ensures items { lines.new.items ≡ lines.old.items }
    ensures room { OnOk result (vec_len lines.new + 1 ≤ vec_capacity lines.new) }
{
    let count = lines.len();
    if count < SEVERAL_LINES || count >= GREATEST_SIZE {
        lines.reserve(1)
    } else if count < MANY_LINES {
        lines.reserve_exact(3 * count)
    } else {
        lines.reserve_exact(GREATEST_SIZE - count)
    }
}

/// Gives back the room that a list of one line or of many has left over.
pub(crate) fn trim(lines: &mut Vec<RawLine>)
    ensures { lines.new.items ≡ lines.old.items }
{
    if lines.len() < 2 || lines.len() > FEW_LINES {
        lines.shrink_to_fit();
    }
}

/// For how many lines a block has room at first: for one where its first line ends it.
#[inline]
pub(crate) fn guess_line_count(reader: &Reader<'_>) -> usize {
    if reader.next_is_one_of(Class::Return, Class::Jump, Class::Trap) {
        1
    } else {
        FIRST_ROOM
    }
}
