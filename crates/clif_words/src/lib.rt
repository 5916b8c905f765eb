//! What the words of CLIF are to the grammar: the classes of tokens, the table of opcodes, and the meaning of a token.
#![tactic(auto)]

mod class;
mod items;
pub mod laws;
mod meanings;
mod opcodes;
mod words;

pub use class::Class;
pub use items::{find_word_meaning, match_quick_terminal};
pub use meanings::{Entity, Extension, Flag, NamedTrap, Terminal, Word};
pub use opcodes::{Opcode, OpcodeRow, list_opcode_rows};
