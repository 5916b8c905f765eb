//! The tokens of a script, read one after the other.

ghost use Rattle.std.specs.Prelude.{◌≡◌, ◌≢◌, ◌<◌, length, map, IfOk, IfErr};
ghost use Rattle.token_reader.specs.declared.stop.Stop.TheVariants.{NoMemory};
ghost use Rattle.token_reader.specs.Next.{spot_or};
ghost use Rattle.token_reader.specs.Reading.{Gives};
ghost use Rattle.script_text.specs.Symbols.{lexeme_of};
ghost use Rattle.script_text.specs.Reading as spec;

use crate::symbol::Symbol;
use crate::terminal::Terminal;
use std::marker::Model;
use token_reader::Stop;

/// The tokens that are still to be read. Contracts see them as the grammar does.
#[derive(Drop)]
pub struct Reader<'a> {
    rest: &'a [Symbol],
}

impl<'a> Model for Reader<'a> {
    ghost use Rattle.std.specs.Prelude.{List, map};
    ghost use Rattle.grammar.specs.Rules.{Lexeme};
    ghost use Rattle.script_text.specs.Symbols.{lexeme_of};

    ghost Value = { List Lexeme };

    ghost view = { λ r. map lexeme_of r.rest.now };
}

impl<'a> Reader<'a> {
    pub fn new(symbols: &'a [Symbol]) -> Self
        ensures { result ≡ map lexeme_of symbols.now }
    {
        Reader { rest: symbols }
    }

    /// Whether the next token is of this terminal.
    pub fn next_is(&self, terminal: Terminal) -> bool
        ensures { result ≡ spec.next_is terminal self.now }
    {
        match self.rest {
            [] => false,
            [symbol, ..] => terminal as u8 == symbol.terminal as u8,
        }
    }

    /// Whether the next token is a number.
    pub fn next_is_number(&self) -> bool
        ensures { result ≡ spec.begins_number self.now }
    {
        self.next_is(Terminal::Byte)
            || self.next_is(Terminal::Large)
            || self.next_is(Terminal::Negative)
    }

    /// Whether the next token begins a reply.
    pub fn next_is_reply(&self) -> bool
        ensures { result ≡ spec.begins_reply self.now }
    {
        self.next_is(Terminal::Return)
            || self.next_is(Terminal::Trap)
            || self.next_is(Terminal::Throw)
    }

    /// Nothing, where no token is left.
    #[tactic(auto, unfolding(crate::specs::Reading::finish_at))]
    pub fn finish(&self) -> Result<(), Stop>
        ensures is { Gives (λ _. tt) self.now result (spec.finish_at self.now) }
        ensures no_memory { IfErr result (λ e. e ≢ NoMemory) }
    {
        if self.rest.is_empty() {
            Ok(())
        } else {
            Err(Stop::Syntax)
        }
    }

    /// The first byte of the next token, or this end where there is none.
    pub fn spot_or(&self, end: usize) -> usize
        ensures { result ≡ spot_or end self.now }
    {
        match self.rest {
            [] => end,
            [symbol, ..] => symbol.spot,
        }
    }

    /// The next token, where it is of this terminal.
    #[tactic(auto, unfolding(crate::specs::Reading::token_at))]
    pub fn take(&mut self, terminal: Terminal) -> Result<Symbol, Stop>
        ensures is { Gives lexeme_of self.new result (spec.token_at terminal self.old) }
        ensures terminal { IfOk result (λ p. p.terminal ≡ terminal) }
        ensures no_memory { IfErr result (λ e. e ≢ NoMemory) }
        ensures shorter { IfOk result (λ _. length self.new < length self.old) }
    {
        match self.rest {
            [symbol, rest @ ..] if symbol.terminal as u8 == terminal as u8 => {
                self.rest = rest;
                Ok(*symbol)
            }
            _ => Err(Stop::Syntax),
        }
    }
}
