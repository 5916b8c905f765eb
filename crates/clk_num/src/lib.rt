//! The operations of CLIF on bits: types of 8 to 128 bits, their values, and what each opcode gives.
#![tactic(auto)]

mod arithmetic;
mod bits;
mod bitwise;
mod conversions;
mod division;
pub mod laws;
mod op;
mod operations;
mod rows;
mod shifts;
mod width;

pub use bits::Bits;
pub use op::{Cc, Op, TrapCode};
pub use operations::{Evaled, eval};
pub use rows::fits;
pub use width::Width;
