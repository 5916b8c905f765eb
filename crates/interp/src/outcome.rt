//! What a run gives.
use byte_store::Memory;
use clk_num::{Bits, TrapCode};
use ir_core::{FuncName, List};

/// What a debug tag shows: a number of the user's, or the bytes of a slot.
#[derive(Drop)]
pub enum Shown {
    User(u32),
    Bytes(List<u8>),
}

/// What a run records.
#[derive(Drop)]
pub enum Event {
    /// A host function was called.
    Host {
        name: FuncName,
        args: List<Bits>,
        shown: List<Shown>,
    },
    /// A sequence point was passed.
    Point {
        shown: List<Shown>,
    },
    /// An exception was caught. `rank` is the number of table entries that were passed before the one that took it.
    Caught {
        tag: u32,
        p0: u64,
        p1: u64,
        rank: u128,
    },
}

/// How a run is over, or that it goes on.
#[derive(Drop)]
pub enum End {
    Going,
    Returned(List<Bits>),
    Trapped(TrapCode),
    Threw { tag: u32, p0: u64, p1: u64 },
    /// A byte of a slot was read or shown before it was written.
    Unwritten,
    /// A host call found no reply left.
    ScriptEnded,
    /// A reply's numbers are not values of the call's results, or it writes outside the memory.
    BadReply,
}

/// The events of a run in order, its memory, and how it is over.
#[derive(Drop)]
pub struct Outcome {
    pub events: List<Event>,
    pub memory: Memory,
    pub end: End,
}
