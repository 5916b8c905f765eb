//! What a turn did, and what a worker works at.
use publish_table::Seat;

/// What a turn did.
#[derive(Drop)]
pub enum Turn {
    /// There was no ticket left.
    Ended,
    /// The body of this ticket was published, and so many sites were inlined into it.
    Filled(usize, u64),
    /// This ticket was published as refused.
    Refused(usize),
}

/// What a worker works at: its seat, and how many steps the bodies cost that it published.
#[derive(Drop)]
pub(crate) struct Desk {
    pub seat: Seat,
    pub count: u128,
}
