//! What workers do at the table.
ghost use Rattle.std.specs.Prelude.{◌≡◌, ◌<◌, ℕ, IfSome, IfNone, IfOk, OnErr, []};
ghost use Rattle.publish_table.specs.Plays.{with_drawn, once_ended, with_filled, with_read, IsNew};
ghost use Rattle.publish_table.specs.Seats.{IsSeatOf, StaysSeat, IsOpen, IsCellOf, IsBodyOf, CellRead, HoldsBody};
ghost use Rattle.publish_table.specs.Seats.{IsPlaceOf, IsSamePlace, view_of};

use crate::board::{Board, Seat};
use crate::plays::DrawTicket;
use crate::steps::{Top, begin_fill, end_fill_body, end_fill_refused, end_read, swap, try_read};
use crate::view::{Cell, View};
use crate::words::Found;
use atomic_table::Seat as Place;
use crossbeam_utils::Backoff;
use std::alloc::AllocError;
use std::sync::{Arc, Wait};

impl Board {
    /// A ticket that no other draw got, which the seat notes. None exactly where the count drawn had reached the number
    /// of tickets; the seat then notes that once, and further draws take no step.
    pub fn draw(&self, seat: &mut Seat) -> Option<usize>
        requires { IsSeatOf self.now seat.old }
        ensures seat { StaysSeat self.now seat.old seat.new }
        ensures some { IfSome result (λ t. (t < self.now.count) × (view_of seat.new ≡ with_drawn (view_of seat.old) t)
            × IsNew (view_of seat.old) t) }
        ensures none { IfNone result (view_of seat.new ≡ once_ended (view_of seat.old)) }
    {
        if seat.ended {
            return None;
        }
        let ticket = self
            .table
            .shared
            .fetch_add::<DrawTicket>(&mut seat.place, 0, 1);
        if ticket < self.count as u64 {
            Some(ticket as usize)
        } else {
            seat.ended = true;
            None
        }
    }

    /// Fills the cell of a ticket that this seat drew and has not filled, and wakes those that sleep for it. The seat
    /// notes with what.
    pub fn publish(&self, seat: &mut Seat, ticket: usize, cell: Cell)
        requires board { IsSeatOf self.now seat.old }
        requires ticket { (ticket < self.now.count) × IsOpen (view_of seat.old) ticket }
        requires cell { IsCellOf (view_of seat.old).job ticket cell }
        ensures board { StaysSeat self.now seat.old seat.new }
        ensures noted { view_of seat.new ≡ with_filled cell (view_of seat.old) ticket }
    {
        let top = &self.table.shared;
        begin_fill(top, &mut seat.place, ticket);
        match cell {
            Cell::Body(body) => {
                swap(top, &mut seat.place, ticket, Some(Cell::Body(body)));
                end_fill_body(top, &mut seat.place, ticket);
            }
            Cell::Refused => {
                swap(top, &mut seat.place, ticket, Some(Cell::Refused));
                end_fill_refused(top, &mut seat.place, ticket);
            }
        }
        top.wake_all(ticket + 1);
    }

    /// The finished body of a ticket by a copy of its `Arc`, whoever published it; or Refused, where a try of this call
    /// found that. It waits until the ticket is filled. The seat notes the ticket as read, or as refused.
    ///
    /// # Errors
    ///
    /// Where the `Arc` could not be copied. The cell has come home, and the seat notes the ticket as read.
    pub fn read<R: Wait>(&self, rt: &R, seat: &mut Seat, ticket: usize) -> Result<Cell, AllocError>
        requires board { IsSeatOf self.now seat.old }
        requires ticket { ticket < self.now.count }
        ensures board { StaysSeat self.now seat.old seat.new }
        ensures cell { IfOk result (λ c. CellRead (view_of seat.old) ticket c (view_of seat.new)) }
        ensures memory { OnErr result (view_of seat.new ≡ with_read (view_of seat.old) ticket) }
    {
        let top = &self.table.shared;
        let backoff = Backoff::new();
        for _ in rt.forever() {
            match try_read(top, &mut seat.place, ticket) {
                Found::Body => return copy_out(top, &mut seat.place, ticket),
                Found::Refused => return Ok(Cell::Refused),
                found => pause(rt, top, &backoff, ticket + 1, found),
            }
        }
        unreachable!()
    }
}

/// What a reader does between two tries of the ticket with the word at this place. It spins and yields at first, and
/// then sleeps until the cell is filled; but for another reader it never sleeps, since that one only copies an `Arc`.
fn pause<R: Wait>(rt: &R, top: &Top, backoff: &Backoff, place: usize, found: Found)
    requires { place < top.now.table_id.words }
{
    match found {
        Found::Unfilled(word) if backoff.is_completed() => top.park(rt, place, word),
        _ => backoff.snooze(),
    }
}

/// Copies the body that is out with the seat, and gives the slot back.
fn copy_out(
    top: &Top,
    place: &mut Place<Option<Cell>, View>,
    ticket: usize,
) -> Result<Cell, AllocError>
    requires table { IsPlaceOf top.now place.old }
    requires ticket { ticket < top.now.table_id.slots }
    requires out { HoldsBody place.old.me ticket }
    ensures same { IsSamePlace place.old place.new }
    ensures me { place.new.me ≡ (with_read place.old.me.0 ticket, []) }
    ensures cell { IfOk result (λ c. IsBodyOf place.old.me.0.job ticket c) }
{
    let Some(Cell::Body(body)) = swap(top, place, ticket, None) else {
        unreachable!()
    };
    let copy = Arc::try_clone(&body);
    swap(top, place, ticket, Some(Cell::Body(body)));
    end_read(top, place, ticket);
    match copy {
        Ok(body) => Ok(Cell::Body(body)),
        Err(error) => Err(error),
    }
}
