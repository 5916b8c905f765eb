//! The cells of a table, and what a seat at it has noted.
use crate::job::Job;
use inline_finish::Built;
use std::alloc::Global;
use std::collections::LinkedList;
use std::sync::Arc;

/// What was published under a ticket.
#[derive(Drop)]
pub enum Cell {
    Body(Arc<Built>),
    /// Its worker found no memory for it, or for a body that it needed.
    Refused,
}

/// What a seat does between two steps.
pub enum Stage {
    Idle,
    Filling(u64),
    Reading(u64),
}

/// What a seat has noted. No value of it is made: it stands in contracts alone.
pub struct View {
    /// What the table is for.
    pub job: Job,
    /// The tickets that were drawn.
    pub drawn: LinkedList<u64>,
    /// Those of them that were filled with a body, and those with a refusal.
    pub bodies: LinkedList<u64>,
    pub refusals: LinkedList<u64>,
    /// The tickets whose bodies were read, and those that were found refused.
    pub read: LinkedList<u64>,
    pub refused: LinkedList<u64>,
    pub stage: Stage,
    /// How many of its seats found that the count drawn had reached the number of tickets.
    pub ends: u64,
    /// Of how many seats this is the view. A seat that was joined into another has 0.
    pub seats: u64,
    /// How many seats there are, for the first one.
    pub made: u64,
}
