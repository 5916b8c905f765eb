//! The states and events of the board machine, and one step.
ghost use Rattle.std.specs.Prelude.{◌≡◌, ◌+◌, ◌<◌, ◌^◌, ℕ, length, IfOk, replicate, None};
ghost use Rattle.board_core.specs.Machine.{is_allowed, after, start};
ghost use Rattle.board_core.specs.declared.state.BoardEvent.TheVariants.{Draw, BeginFill, EndFill, BeginRead, EndRead};

use std::alloc::{AllocError, Global};
use std::marker::Model;

/// With what a cell was filled.
#[derive(Clone, Copy, PartialEq, Eq, Debug)]
pub enum Mark {
    /// A finished body.
    Body,
    /// Nothing: the owner found no memory.
    Refused,
}

/// What happens to a cell. Workers go by their numbers.
#[derive(Clone, Copy, PartialEq, Eq)]
pub enum Phase {
    /// Nobody has filled it.
    Vacant,
    /// This worker fills it.
    Filling(u32),
    /// It is filled, and nobody reads it.
    Full(Mark),
    /// It is filled with a body, which this worker reads.
    Reading(u32),
}

/// One atomic step of one worker: its number comes first, then the number of the ticket.
#[derive(Clone, Copy, PartialEq, Eq, Debug)]
pub enum BoardEvent {
    /// The worker draws the next ticket.
    Draw(u32),
    /// The worker begins to fill the ticket's cell.
    BeginFill(u32, u64),
    /// The worker has filled the cell, with this mark.
    EndFill(u32, u64, Mark),
    /// The worker begins to read the cell.
    BeginRead(u32, u64),
    /// The worker has read the cell.
    EndRead(u32, u64),
}

/// The board: one ticket and one cell for each function. Contracts see it as a `Board`.
#[derive(Drop)]
pub struct BoardState {
    next: u64,
    owners: Vec<Option<u32>>,
    phases: Vec<Phase>,
}

impl Model for BoardState {
    ghost use Rattle.board_core.specs.Board.{Board};

    ghost Value = { Board };

    ghost view = { λ b. record { next = b.next; owners = b.owners.items; phases = b.phases.items } };
}

impl BoardState {
    /// The board of this many functions, on which nothing happened: no ticket is drawn, and each cell is vacant. Only
    /// `AllocError` refuses.
    pub fn new(alloc: Global, functions: usize) -> Result<BoardState, AllocError>
        ensures { IfOk result (λ board. board ≡ start functions) }
    {
        Ok(BoardState {
            next: 0,
            owners: vec![in alloc; None; functions]?,
            phases: vec![in alloc; Phase::Vacant; functions]?,
        })
    }

    /// The ticket that the next draw gives. It passes the number of functions where more tickets are drawn.
    pub fn next(&self) -> u64
        ensures { result ≡ self.now.next }
    {
        self.next
    }

    /// Who drew each function's ticket.
    pub fn owners(&self) -> &[Option<u32>]
        ensures { result.now ≡ self.now.owners }
    {
        self.owners.as_slice()
    }

    /// The phase of each function's cell.
    pub fn phases(&self) -> &[Phase]
        ensures { result.now ≡ self.now.phases }
    {
        self.phases.as_slice()
    }
}

/// Lets the event happen where it is allowed. `false` exactly where it is not; the state is then as before.
///
/// A draw is allowed while `next` is below the greatest `u64`. A ticket without a function has no other event. A fill
/// is begun by the ticket's owner in a vacant cell and ended by the worker that began it; a read is begun in a cell
/// that is full with a body, and ended by the worker that began it.
pub fn step(state: &mut BoardState, event: BoardEvent) -> bool
    ensures answer { result ≡ is_allowed state.old event }
    ensures state { state.new ≡ after state.old event }
{
    match event {
        BoardEvent::Draw(worker) => draw(state, worker),
        BoardEvent::BeginFill(worker, ticket) => begin_fill(state, worker, ticket),
        BoardEvent::EndFill(worker, ticket, mark) => end_fill(state, worker, ticket, mark),
        BoardEvent::BeginRead(worker, ticket) => begin_read(state, worker, ticket),
        BoardEvent::EndRead(worker, ticket) => end_read(state, worker, ticket),
    }
}

fn draw(state: &mut BoardState, worker: u32) -> bool
    ensures answer { result ≡ is_allowed state.old (Draw worker) }
    ensures state { state.new ≡ after state.old (Draw worker) }
{
    let ticket = state.next;
    if ticket == u64::MAX {
        return false;
    }
    state.next = ticket + 1;
    let place = ticket as usize;
    if place < state.owners.len() {
        state.owners[place] = Some(worker);
    }
    true
}

fn begin_fill(state: &mut BoardState, worker: u32, ticket: u64) -> bool
    ensures answer { result ≡ is_allowed state.old (BeginFill worker ticket) }
    ensures state { state.new ≡ after state.old (BeginFill worker ticket) }
{
    let place = ticket as usize;
    let Some(Some(owner)) = state.owners.get(place).copied() else {
        return false;
    };
    let Some(Phase::Vacant) = state.phases.get(place).copied() else {
        return false;
    };
    if owner != worker {
        return false;
    }
    state.phases[place] = Phase::Filling(worker);
    true
}

fn end_fill(state: &mut BoardState, worker: u32, ticket: u64, mark: Mark) -> bool
    ensures answer { result ≡ is_allowed state.old (EndFill worker ticket mark) }
    ensures state { state.new ≡ after state.old (EndFill worker ticket mark) }
{
    let place = ticket as usize;
    let Some(Phase::Filling(filler)) = state.phases.get(place).copied() else {
        return false;
    };
    if filler != worker {
        return false;
    }
    state.phases[place] = Phase::Full(mark);
    true
}

fn begin_read(state: &mut BoardState, worker: u32, ticket: u64) -> bool
    ensures answer { result ≡ is_allowed state.old (BeginRead worker ticket) }
    ensures state { state.new ≡ after state.old (BeginRead worker ticket) }
{
    let place = ticket as usize;
    let Some(Phase::Full(Mark::Body)) = state.phases.get(place).copied() else {
        return false;
    };
    state.phases[place] = Phase::Reading(worker);
    true
}

fn end_read(state: &mut BoardState, worker: u32, ticket: u64) -> bool
    ensures answer { result ≡ is_allowed state.old (EndRead worker ticket) }
    ensures state { state.new ≡ after state.old (EndRead worker ticket) }
{
    let place = ticket as usize;
    let Some(Phase::Reading(reader)) = state.phases.get(place).copied() else {
        return false;
    };
    if reader != worker {
        return false;
    }
    state.phases[place] = Phase::Full(Mark::Body);
    true
}
