//! What header lines ask for.
ghost use Rattle.std.specs.Prelude.{◌≡◌, ◌∷◌, option_map, IfOk};
ghost use Rattle.ir_core.specs.Lookup.{and_then};
ghost use Rattle.test_directives.specs.Blanks.{words};
ghost use Rattle.test_directives.specs.Commands as spec;
ghost use Rattle.test_directives.specs.Views.{command_of, words_of};

use crate::blanks::{behind, next_word};
use ir_core::{GREATEST_SIZE, List};
use std::alloc::{AllocError, Global};

/// What a `test` line asks for.
#[derive(Drop)]
pub enum Command {
    Cat,
    Verifier,
    Interpret,
    Run,
    /// With the size policy of the pass, and whether the whole text is compared.
    Inline {
        precise: bool,
        callee_size: usize,
        caller_size: usize,
    },
    /// A command that is left out, by its word.
    Other(List<u8>),
}

impl Command {
    /// The word of the command.
    pub fn word(&self) -> &[u8]
        ensures { result.now ≡ spec.word_of (command_of self.now) }
    {
        match self {
            Command::Cat => b"cat".as_slice(),
            Command::Verifier => b"verifier".as_slice(),
            Command::Interpret => b"interpret".as_slice(),
            Command::Run => b"run".as_slice(),
            Command::Inline { .. } => b"inline".as_slice(),
            Command::Other(word) => word.as_slice(),
        }
    }

    /// Whether what it looks at is a text that is accepted.
    pub fn needs_accepted(&self) -> bool
        ensures { result ≡ spec.needs_accepted (command_of self.now) }
    {
        match self {
            Command::Cat | Command::Interpret | Command::Run | Command::Inline { .. } => true,
            Command::Verifier | Command::Other(_) => false,
        }
    }
}

/// The size that these bytes are the decimal digits of.
fn size_of(digits: &[u8]) -> Option<usize>
    ensures { result ≡ spec.size_of digits.now }
{
    let mut size = 0;
    for digit in digits {
        size = 10 * size + digit.saturating_sub(b'0') as usize;
        if size > GREATEST_SIZE {
            return None;
        }
    }
    if itoa::Buffer::new().format(size).as_bytes() == digits {
        Some(size)
    } else {
        None
    }
}

/// The words of `inline`.
#[derive(Clone, Copy)]
struct InlineWords {
    precise: bool,
    callee_size: usize,
    caller_size: usize,
}

impl InlineWords {
    /// What a word changes. `None` where it is a size without a reading.
    fn after_word(self, word: &[u8]) -> Option<InlineWords>
        ensures { option_map words_of result ≡ spec.after_word (words_of self) word.now }
    {
        if word == b"precise-output".as_slice() {
            return Some(InlineWords {
                precise: true,
                ..self
            });
        }
        if let Some(digits) = behind(word, b"callee-size=".as_slice()) {
            let callee_size = size_of(digits)?;
            return Some(InlineWords {
                callee_size,
                ..self
            });
        }
        if let Some(digits) = behind(word, b"caller-size=".as_slice()) {
            let caller_size = size_of(digits)?;
            return Some(InlineWords {
                caller_size,
                ..self
            });
        }
        Some(self)
    }
}

/// What the words of a text make of the command `inline`.
fn inline_command(text: &[u8]) -> Option<Command>
    ensures { option_map command_of result
        ≡ and_then (spec.after_words spec.usual_words (words text.now)) (λ asked. Some (spec.Inline asked)) }
{
    let mut asked = InlineWords {
        precise: false,
        callee_size: 64,
        caller_size: 4096,
    };
    let mut rest = text;
    while let Some((word, after)) = next_word(rest) {
        asked = asked.after_word(word)?;
        rest = after;
    }
    Some(Command::Inline {
        precise: asked.precise,
        callee_size: asked.callee_size,
        caller_size: asked.caller_size,
    })
}

/// The command that a word and the text behind it are. `None` where a size has no reading.
fn command_by(alloc: Global, word: &[u8], after: &[u8]) -> Result<Option<Command>, AllocError>
    ensures { IfOk result (λ command. option_map command_of command
        ≡ spec.command_of_words (word.now ∷ words after.now)) }
{
    let command = if word == b"cat".as_slice() {
        Some(Command::Cat)
    } else if word == b"verifier".as_slice() {
        Some(Command::Verifier)
    } else if word == b"interpret".as_slice() {
        Some(Command::Interpret)
    } else if word == b"run".as_slice() {
        Some(Command::Run)
    } else if word == b"inline".as_slice() {
        inline_command(after)
    } else {
        Some(Command::Other(List::from_vec(Vec::from_slice(alloc, word)?)))
    };
    Ok(command)
}

/// What a header line asks for: `None` where it is no `test` line, and `Some(None)` where it is one without a reading.
pub(crate) fn command_of(
    alloc: Global,
    header: &[u8],
) -> Result<Option<Option<Command>>, AllocError>
    ensures { IfOk result (λ command. option_map (option_map command_of) command ≡ spec.command_of header.now) }
{
    let Some(text) = behind(header, b"test".as_slice()) else {
        return Ok(None);
    };
    match next_word(text) {
        None => Ok(Some(None)),
        Some((word, after)) => Ok(Some(command_by(alloc, word, after)?)),
    }
}
