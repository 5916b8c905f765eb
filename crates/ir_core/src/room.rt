//! Spare room of a function.

/// How many more of each kind.
#[derive(Clone, Copy, PartialEq, Eq)]
pub struct Room {
    pub slots: usize,
    pub sigs: usize,
    pub callees: usize,
    pub values: usize,
    pub blocks: usize,
    pub insts: usize,
}
