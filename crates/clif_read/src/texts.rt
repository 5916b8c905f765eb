//! The module of a text.

ghost use Rattle.std.specs.Prelude.{◌≡◌, length, Ok, IfOk, IfErr};
ghost use Rattle.clif_lex.specs.Faults.{StandsWithin};
ghost use Rattle.clif_lex.specs.Lexing.{tokens_of};
ghost use Rattle.clif_words.specs.Lexemes.{lexemes};
ghost use Rattle.clif_read.specs.Formed.{IsFormed};
ghost use Rattle.clif_read.specs.Texts.{IsFaultOf, IsModule, IsModuleText, Stopped};
ghost use Rattle.clif_read.specs.Texts as spec;

use crate::modules::read_whole_module;
use crate::raw::RawModule;
use clif_lex::{TextErr, TextKind, Tokens, tokens};
use std::alloc::Global;
use token_reader::{Reader, Stop};

/// The error of a stop at this byte.
fn make_error(stop: Stop, spot: usize) -> TextErr
    ensures { result ≡ spec.error_at stop spot }
{
    let kind = match stop {
        Stop::Syntax => TextKind::Syntax,
        Stop::UnknownOpcode => TextKind::UnknownOpcode,
        Stop::Unsupported => TextKind::Unsupported,
        Stop::NoMemory => return TextErr::NoMemory,
    };
    TextErr::Fault { kind, spot }
}

/// The module that a text is, from the text's tokens, read by the calling thread alone.
///
/// # Errors
///
/// At the first token with which the text begins no module, or at its end: `UnknownOpcode` at a word in the place of an
/// opcode, `Unsupported` at a word of CLIF that is left out here, else `Syntax`.
pub fn read_raw_alone(alloc: Global, text: &[u8], tokens: &Tokens) -> Result<RawModule, TextErr>
    requires whole { tokens_of text.now ≡ Ok tokens.now }
    ensures found { IfOk result (λ m. IsModule (lexemes text.now tokens.now) m) }
    ensures stop { IfErr result (λ e. Stopped (lexemes text.now tokens.now) (length text.now) e) }
    ensures formed { IfOk result (λ m. IsFormed (length text.now) m) }
    ensures within { IfErr result (λ e. StandsWithin (length text.now) e) }
{
    let mut reader = Reader::new(text, tokens, 0);
    let read = read_whole_module(alloc, &mut reader);
    let spot = reader.spot_or(text.len());
    match read {
        Ok(found) => Ok(found),
        Err(stop) => Err(make_error(stop, spot)),
    }
}

/// The module that a text is, read by the calling thread alone.
///
/// # Errors
///
/// The first fault of the text's tokens, as `clif_lex::tokens` gives it; where there is none, the first of the module,
/// as `read_raw_alone` gives it.
pub fn read_text_alone(alloc: Global, text: &[u8]) -> Result<RawModule, TextErr>
    ensures found { IfOk result (λ found. IsModuleText text.now found) }
    ensures fault { IfErr result (λ e. IsFaultOf text.now e) }
    ensures formed { IfOk result (λ found. IsFormed (length text.now) found) }
    ensures within { IfErr result (λ e. StandsWithin (length text.now) e) }
{
    let tokens = tokens(alloc, text)?;
    read_raw_alone(alloc, text, &tokens)
}
