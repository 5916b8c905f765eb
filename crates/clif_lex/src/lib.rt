//! The tokens of a CLIF text, and the places of its bytes.
#![tactic(auto)]

mod bytes;
mod faults;
pub mod laws;
mod lexing;
mod lines;
mod numbers;
mod places;
mod spans;

pub use bytes::is_blank;
pub use faults::{LexErr, Place, TextErr, TextKind};
pub use lexing::{digit_run, tokens, tokens_between};
pub use lines::next_line_with;
pub use numbers::{digit, number};
pub use places::place;
pub use spans::{Token, TokenIter, TokenKind, Tokens, spelling};
