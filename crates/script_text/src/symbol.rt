//! A token of a script.

ghost use Rattle.std.specs.Prelude.{◌≡◌, ◌<◌, ◌^◌};
ghost use Rattle.script_text.specs.declared.terminal.Terminal.TheVariants.{Byte, Tag, UserTrap};

use crate::terminal::Terminal;

/// A token of a script.
#[derive(Clone, Copy)]
pub struct Symbol {
    pub terminal: Terminal,
    /// Which of the words of its terminal it is, or what a number is modulo 2^64.
    pub number: u64,
    /// What a number is.
    pub amount: i128,
    /// Its first byte.
    pub spot: usize,
    pub ghost byte: { terminal ≡ Byte → number < 2 ^ 8 },
    pub ghost user: { terminal ≡ UserTrap → number < 2 ^ 16 },
    pub ghost tag: { terminal ≡ Tag → number < 2 ^ 32 },
}
