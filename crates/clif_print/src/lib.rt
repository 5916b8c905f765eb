//! Canonical text: the text of a module and of a function, and of what else is spelled so.
#![tactic(auto)]

mod control;
mod declarations;
mod functions;
mod instructions;
mod lists;
mod operands;
mod signatures;
mod suffixes;
mod text;
mod words;

pub use functions::put_function;
pub use operands::{put_constant, put_trap_code};
pub use signatures::put_name;
pub use text::{func_text, print, text_len};
