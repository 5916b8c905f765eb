//! The opcodes of the operations, the conditions of `icmp`, and the codes of traps.

use crate::width::Width;

/// The condition of `icmp`, signed (`S`) or unsigned (`U`).
#[derive(Clone, Copy, PartialEq, Eq)]
pub enum Cc {
    Eq,
    Ne,
    Slt,
    Sge,
    Sgt,
    Sle,
    Ult,
    Uge,
    Ugt,
    Ule,
}

/// Why a run trapped. `User` has the number of a `userN`.
#[derive(Clone, Copy, PartialEq, Eq)]
pub enum TrapCode {
    StkOvf,
    IntOvf,
    HeapOob,
    IntDivz,
    BadToint,
    User(u16),
}

/// An opcode that computes on values, by its CLIF name. `Icmp` has its condition, and `Uextend`, `Sextend` and
/// `Ireduce` have the width of their result.
#[derive(Clone, Copy, PartialEq, Eq)]
pub enum Op {
    Iadd,
    Isub,
    Imul,
    Band,
    Bor,
    Bxor,
    Smin,
    Smax,
    Umin,
    Umax,
    Umulhi,
    Smulhi,
    Udiv,
    Urem,
    Sdiv,
    Srem,
    Ineg,
    Bnot,
    Iabs,
    Clz,
    Ctz,
    Popcnt,
    Bitrev,
    Bswap,
    Ishl,
    Ushr,
    Sshr,
    Rotl,
    Rotr,
    Icmp(Cc),
    Select,
    Uextend(Width),
    Sextend(Width),
    Ireduce(Width),
    UaddOverflow,
    SaddOverflow,
    UsubOverflow,
    SsubOverflow,
    Iconcat,
    Isplit,
}
