//! Places in a function.
use crate::numbers::Block;

/// An instruction's place: its block, and its index there from 0.
#[derive(Clone, Copy, Debug, PartialEq, Eq)]
pub struct Point {
    pub block: Block,
    pub index: u32,
}

/// A part of a function that a fault can name.
#[derive(Clone, Copy, Debug, PartialEq, Eq)]
pub enum Item {
    /// The function itself.
    Whole,
    /// The callee declaration of this number.
    Callee(u32),
    /// The block of this number.
    Block(u32),
    /// An instruction.
    Inst(Point),
}
