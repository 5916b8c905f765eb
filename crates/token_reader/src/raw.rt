//! What single tokens spell, with their places in the text.

use clif_words::Opcode;
use ir_core::NameBytes;

/// An entity, a tag or a result by its word, as `v7`.
#[derive(Clone, Copy, PartialEq, Eq)]
pub struct RawName {
    /// The number in the word, or `u64::MAX` where it is above that.
    pub number: u64,
    /// The word's first byte.
    pub spot: usize,
}

/// An opcode.
#[derive(Clone, Copy, PartialEq, Eq)]
pub struct RawOpcode {
    /// Which one it is.
    pub kind: Opcode,
    /// The opcode's first byte.
    pub spot: usize,
}

/// A number.
#[derive(Clone, Copy, PartialEq, Eq)]
pub struct RawNumber {
    pub value: i128,
    /// The number's first byte.
    pub spot: usize,
}

/// A name, as `%f`.
#[derive(Drop)]
pub struct RawText {
    /// The name without its `%`.
    pub bytes: NameBytes,
    /// The name's first byte, the `%`.
    pub spot: usize,
}
