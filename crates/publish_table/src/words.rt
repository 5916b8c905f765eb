//! The words of tickets, and what a try to read a ticket found.

/// Nobody has filled the ticket's cell.
pub(crate) const VACANT: u64 = 0;

/// The seat that drew the ticket fills its cell.
pub(crate) const FILLING: u64 = 1;

/// The cell was filled with a body, which is at home.
pub(crate) const BODY: u64 = 2;

/// The body is out with a seat that reads it.
pub(crate) const READING: u64 = 3;

/// The cell was filled with a refusal.
pub(crate) const REFUSED: u64 = 4;

/// What a try to read a ticket found.
#[derive(Clone, Copy)]
pub(crate) enum Found {
    /// The body, which is out with the seat now.
    Body,
    /// A refusal.
    Refused,
    /// Another seat, which reads the body.
    Reader,
    /// No cell yet, and this word.
    Unfilled(u32),
}
