//! How a table is made, and what it leaves.
ghost use Rattle.std.specs.Prelude.{◌≡◌, ◌+◌, ◌-◌, ◌<◌, ◌≤◌, ℕ, IfOk, [], ◌∷◌, ◌++◌, List, All, length, map, replicate};
ghost use Rattle.std.specs.Prelude.{vec_capacity, vec_len, Some, Option, slice_get};
ghost use mathlib.Core.Option.{some};
ghost use lib.ListN.{get_elem?};
ghost use Rattle.std.specs.Slots.{slots_items, slots_len, IsFull};
ghost use Rattle.publish_table.specs.declared.view.Stage.TheVariants.{Idle};
ghost use Rattle.publish_table.specs.declared.view.Cell.{Cell};
ghost use Rattle.publish_table.specs.Plays.{with_seat, new_seat, fresh, joined, joined_all};
ghost use Rattle.publish_table.specs.Seats.{IsPlaceOf, IsSamePlace, IsMade, IsFresh, IsJoinable, AreAllSeats, IsClosed};
ghost use Rattle.publish_table.specs.Seats.{view_of};

use crate::board::{Board, Seat};
use crate::job::Job;
use crate::plays::{MakeSeat, TakeIn};
use crate::steps::Top;
use crate::view::{Cell, View};
use atomic_table::{Closed, Seat as Place, Table};
use inline_finish::Policy;
use ir_core::Module;
use std::alloc::{AllocError, Global};
use std::snapshot::Snapshot;

type At = Place<Option<Cell>, View>;

/// The first seat makes another, and counts it.
fn split_first(top: &Top, first: &mut At) -> At
    requires table { IsPlaceOf top.now first.old }
    requires first { (first.old.id ≡ 0) × (first.old.me.0.made < 64) }
    ensures same { IsSamePlace first.old first.new
        × (first.new.me ≡ (with_seat first.old.me.0, first.old.me.1)) }
    ensures new { (result.table_id ≡ first.old.table_id) × (result.me ≡ (new_seat first.old.me.0, [])) }
{
    top.split_seat::<MakeSeat>(first)
}

/// A seat that was not yet answered None.
fn seated(place: At) -> Seat
    requires { (place.me.1 ≡ []) × (place.me.0.ends ≡ 0) }
    ensures { result.place ≡ place }
{
    Seat {
        place,
        ended: false,
    }
}

/// The other seats. The first one counts them.
fn make_others(
    alloc: Global,
    top: &Top,
    first: &mut At,
    seats: usize,
) -> Result<Vec<Seat>, AllocError>
    requires table { IsPlaceOf top.now first.old }
    requires first { (first.old.id ≡ 0) × (first.old.me ≡ (fresh top.now.key 1, [])) }
    requires seats { (1 ≤ seats) × (seats ≤ 64) }
    ensures first { IfOk result
        (λ _. IsSamePlace first.old first.new × (first.new.me ≡ (fresh top.now.key seats, []))) }
    ensures others { IfOk result
        (λ v. All (IsFresh top.now) v.items × (vec_len v + 1 ≡ seats) × (vec_len v < vec_capacity v)) }
{
    let mut others = Vec::with_capacity(alloc, seats)?;
    for _made in 1..seats {
        let place = split_first(top, first);
        others.push_reserved(seated(place));
    }
    Ok(others)
}

fn zeros(alloc: Global, count: usize) -> Result<Vec<u64>, AllocError>
    ensures { IfOk result (λ v. v.items ≡ replicate count 0) }
{
    let words: Vec<u64> = vec![in alloc; 0u64; count]?;
    Ok(words)
}

impl Board {
    /// A table for the bodies of these functions, all vacant, and its seats.
    /// It takes room for the cells that `close` answers.
    pub fn new(
        alloc: Global,
        functions: &Module,
        policy: Policy,
        seats: usize,
    ) -> Result<(Board, Vec<Seat>), AllocError>
        requires seats { (1 ≤ seats) × (seats ≤ 64) }
        ensures { IfOk result (λ r. IsMade functions.now policy seats r.0 r.1.items) }
    {
        let count = functions.len();
        let job = Job {
            functions: Snapshot::of(functions),
            policy,
        };
        let cells = Vec::with_capacity(alloc, count)?;
        let words = zeros(alloc, count + 1)?;
        let (table, mut first) = Table::vacant(alloc, words.as_slice(), count, &job)?;
        let mut all = make_others(alloc, &table.shared, &mut first, seats)?;
        let last = seated(first);
        all.push_reserved(last);
        Ok((
            Board {
                table,
                count,
                cells,
            },
            all,
        ))
    }

    /// The cells in the order of tickets, once all is drawn and filled. It takes no memory.
    pub fn close(self, seats: Vec<Seat>) -> Vec<Cell>
        requires { AreAllSeats self seats.items }
        ensures { IsClosed self.table.shared.key seats.items result.items }
    {
        let Board {
            table,
            count,
            cells,
        } = self;
        let mut others = seats;
        let Some(last) = others.pop() else {
            unreachable!()
        };
        let first = gathered(&table.shared, last, others);
        let closed = table.close_with(first);
        take_all(closed, count, cells)
    }
}

/// Joins the other seats into the last one.
fn gathered(top: &Top, last: Seat, others: Vec<Seat>) -> At
    requires table { (0 < top.now.table_id.words) × IsJoinable top.now last × (last.place.id ≡ 0) }
    requires others { All (IsJoinable top.now) others.items }
    ensures same { (result.table_id ≡ last.place.table_id) × (result.id ≡ 0) }
    ensures view { result.me.0 ≡ joined_all last.place.me.0 (map view_of others.items) }
{
    let Seat {
        place: mut first,
        ended: _,
    } = last;
    for seat in others {
        let Seat { place, ended: _ } = seat;
        join_one(top, &mut first, place);
    }
    first
}

/// Joins another seat into the first.
fn join_one(top: &Top, first: &mut At, other: At)
    requires table { (0 < top.now.table_id.words) × (first.old.table_id ≡ top.now.table_id)
        × (other.table_id ≡ top.now.table_id) × (other.me.1 ≡ []) × (first.old.id ≡ 0) }
    requires views { (0 < first.old.me.0.seats) × (other.me.0.seats ≡ 1) × (first.old.me.0.stage ≡ Idle)
        × (other.me.0.stage ≡ Idle) }
    ensures same { IsSamePlace first.old first.new }
    ensures view { first.new.me.0 ≡ joined first.old.me.0 other.me.0 }
{
    top.join_seat::<TakeIn>(first, other);
}

/// Takes the cells out, in their order.
fn take_all(closed: Closed<Option<Cell>, Global>, count: usize, cells: Vec<Cell>) -> Vec<Cell>
    requires full { IsFull closed.slots × (slots_len closed.slots ≡ count) }
    requires some { (t : ℕ) → t < count → (c : Cell) × (get_elem? (slots_items closed.slots) t ≡ some (Some c)) }
    requires room { (cells.items ≡ []) × (count ≤ vec_capacity cells) }
    ensures long { vec_len result ≡ count }
    ensures cells { (t : ℕ) (c : Cell) → t < count → get_elem? (slots_items closed.slots) t ≡ some (Some c)
        → slice_get result.items t ≡ Some c }
{
    let mut closed = closed;
    let mut cells = cells;
    for i in 0..count {
        match closed.take(i) {
            Some(cell) => cells.push_reserved(cell),
            None => unreachable!(),
        }
    }
    closed.free();
    cells
}
