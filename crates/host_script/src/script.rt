//! Scripts.
use clk_num::TrapCode;
use ir_core::List;

/// What a host function does, once its writes are made.
#[derive(Drop)]
pub enum Act {
    /// It returns these numbers, each of which is to fit the type of a result.
    Return(List<i128>),
    Trap(TrapCode),
    /// It throws an exception of the tag with two payloads.
    Throw { tag: u32, p0: u64, p1: u64 },
}

/// The reply to one host call: first its writes, each an address and a byte, then what it does.
#[derive(Drop)]
pub struct Reply {
    pub act: Act,
    pub writes: List<(u64, u8)>,
}

/// The replies in order: each host call takes the next.
#[derive(Drop)]
pub struct Script {
    pub replies: List<Reply>,
}
