//! Which ticket a worker works on: it draws a run of tickets, and works on them in the order in which it drew them.
ghost use Rattle.std.specs.Prelude.{◌≡◌, ◌<◌, ℕ, [], ◌∷◌, IfSome, IfNone};
ghost use Rattle.publish_table.specs.Plays.{once_ended};
ghost use Rattle.publish_table.specs.Seats.{IsSeatOf, StaysSeat, view_of};
ghost use Rattle.worker_driver.specs.Turns.{IsDoneBut, OnlyDrew};

use publish_table::{Board, Seat};
use range_workers::make_room;
use std::alloc::Global;
use std::collections::VecDeque;

/// How many tickets a worker draws ahead of the one that it works on: it draws about 64 times in all, and at most 64
/// tickets at a time.
pub(crate) fn many_ahead(functions: usize, workers: usize) -> usize
    requires { 0 < workers }
    ensures { result < 64 }
{
    (functions / workers / 64).min(64).saturating_sub(1)
}

/// No ticket, with room for so many; or with no room, where memory fails.
pub(crate) fn none_ahead(alloc: Global, many: usize) -> VecDeque<usize>
    ensures { result.items ≡ [] }
{
    match VecDeque::with_capacity(alloc, many) {
        Ok(ahead) => ahead,
        Err(_) => VecDeque::new(alloc),
    }
}

/// Has the allocator take room for the bodies of the next run of tickets at once, where none is ahead.
pub(crate) fn make_room_for_run(alloc: Global, ahead: &VecDeque<usize>) {
    if ahead.is_empty() {
        make_room(alloc);
    }
}

/// Draws tickets ahead while there is room for one and one is left.
fn draw_ahead(board: &Board, seat: &mut Seat, ahead: &mut VecDeque<usize>)
    requires { IsSeatOf board.now seat.old }
    ensures seat { StaysSeat board.now seat.old seat.new }
    ensures view { OnlyDrew board.now.count (view_of seat.old) (view_of seat.new) }
    ensures left { (t : ℕ) → IsDoneBut board.now.count (view_of seat.old) (t ∷ ahead.old.items)
        → IsDoneBut board.now.count (view_of seat.new) (t ∷ ahead.new.items) }
{
    while ahead.len() < ahead.capacity() {
        let Some(ticket) = board.draw(seat) else {
            return;
        };
        ahead.push_back_reserved(ticket);
    }
}

/// The first ticket that was drawn ahead. Where there is none it draws one, and then as many ahead as there is room
/// for.
pub(crate) fn next_ticket(
    board: &Board,
    seat: &mut Seat,
    ahead: &mut VecDeque<usize>,
) -> Option<usize>
    requires seat { IsSeatOf board.now seat.old }
    requires left { IsDoneBut board.now.count (view_of seat.old) ahead.old.items }
    ensures seat { StaysSeat board.now seat.old seat.new }
    ensures view { OnlyDrew board.now.count (view_of seat.old) (view_of seat.new) }
    ensures some { IfSome result (λ t. IsDoneBut board.now.count (view_of seat.new) (t ∷ ahead.new.items)) }
    ensures none { IfNone result ((view_of seat.new ≡ once_ended (view_of seat.old)) × (ahead.new.items ≡ [])
        × IsDoneBut board.now.count (view_of seat.new) []) }
{
    if let Some(ticket) = ahead.pop_front() {
        return Some(ticket);
    }
    let ticket = board.draw(seat)?;
    draw_ahead(board, seat, ahead);
    Some(ticket)
}
