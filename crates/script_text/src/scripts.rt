//! Scripts and lists of numbers.

ghost use Rattle.std.specs.Prelude.{◌≡◌, map, IfOk, IfErr};
ghost use Rattle.token_reader.specs.Reading.{Gives};
ghost use Rattle.host_script.specs.Script.{replies_of, reply_of};
ghost use Rattle.script_text.specs.declared.scripts.ScriptErr.TheVariants.{NoMemory};
ghost use Rattle.script_text.specs.Grammar as grammar;
ghost use Rattle.script_text.specs.Reading as reading;
ghost use Rattle.script_text.specs.Scripts.{Reads, Refuses};
ghost use Rattle.script_text.specs.Scripts as spec;
ghost use Rattle.script_text.specs.Values.{number_list_value, script_value};

use crate::reader::Reader;
use crate::replies::read_replies;
use crate::symbols::lex_symbols;
use crate::values::read_numbers;
use host_script::{Reply, Script};
use ir_core::List;
use std::alloc::{AllocError, AllocFailed, Global};
use std::error::Error;
use std::fmt;
use token_reader::Stop;

/// Why a text is not read.
#[derive(Clone, Copy, Debug, PartialEq, Eq)]
pub enum ScriptErr {
    /// The first byte of the first token that does not fit, or the text's end where one is missing.
    BadScript(usize),
    /// Memory ran out.
    NoMemory,
}

impl fmt::Display for ScriptErr {
    fn fmt<W: fmt::Write>(&self, f: &mut fmt::Formatter<W>) -> fmt::Result {
        match self {
            ScriptErr::BadScript(spot) => write!(
                f,
                "the script does not go on like this at byte {spot}"
            ),
            ScriptErr::NoMemory => write!(f, "out of memory"),
        }
    }
}

impl Error for ScriptErr {}

impl From<AllocError> for ScriptErr {
    ghost from_gives = { λ _ e. e ≡ NoMemory };

    fn from(_: AllocError) -> Self {
        ScriptErr::NoMemory
    }
}

impl<T: Drop> From<AllocFailed<T>> for ScriptErr {
    ghost from_gives = { λ _ e. e ≡ NoMemory };

    fn from(_: AllocFailed<T>) -> Self {
        ScriptErr::NoMemory
    }
}

/// The error of a stop at a byte.
fn make_error(stop: Stop, spot: usize) -> ScriptErr
    ensures { result ≡ spec.error_at stop spot }
{
    match stop {
        Stop::NoMemory => ScriptErr::NoMemory,
        Stop::Syntax | Stop::UnknownOpcode | Stop::Unsupported => ScriptErr::BadScript(spot),
    }
}

/// All of the tokens as replies.
#[tactic(auto, unfolding(crate::specs::Reading::whole))]
fn read_whole_script(alloc: Global, reader: &mut Reader<'_>) -> Result<Vec<Reply>, Stop>
    ensures { Gives (λ x. map reply_of x.items) reader.new result (reading.whole reading.script_at reader.old) }
{
    let replies = read_replies(alloc, reader)?;
    reader.finish()?;
    Ok(replies)
}

/// All of the tokens as numbers.
#[tactic(auto, unfolding(crate::specs::Reading::whole))]
fn read_whole_list(alloc: Global, reader: &mut Reader<'_>) -> Result<Vec<i128>, Stop>
    ensures { Gives (λ x. x.items) reader.new result (reading.whole reading.number_list_at reader.old) }
{
    let numbers = read_numbers(alloc, reader)?;
    reader.finish()?;
    Ok(numbers)
}

/// The script that a text is. The empty text is the one without replies.
/// It takes time and memory in proportion to the text.
///
/// # Errors
///
/// At the first token with which no script goes on, and at the text's end where a script is missing something. A place
/// where no token stands, a comment too, is such a token, and so is a number that is too great where it stands.
pub fn script(alloc: Global, text: &str) -> Result<Script, ScriptErr>
    ensures read { IfOk result (λ s. Reads grammar.script script_value text.now (replies_of s)) }
    ensures refused { IfErr result (Refuses grammar.script text.now) }
{
    let symbols = lex_symbols(alloc, text.as_bytes())?;
    let mut reader = Reader::new(symbols.as_slice());
    match read_whole_script(alloc, &mut reader) {
        Ok(replies) => Ok(Script {
            replies: List::from_vec(replies),
        }),
        Err(stop) => Err(make_error(stop, reader.spot_or(text.len()))),
    }
}

/// The numbers that a text is, joined by commas. The empty text is the empty list.
/// It takes time and memory in proportion to the text.
///
/// # Errors
///
/// At the first token with which no list of numbers goes on, and at the text's end behind a comma.
pub fn number_list(alloc: Global, text: &str) -> Result<Vec<i128>, ScriptErr>
    ensures read { IfOk result (λ v. Reads grammar.number_list number_list_value text.now v.items) }
    ensures refused { IfErr result (Refuses grammar.number_list text.now) }
{
    let symbols = lex_symbols(alloc, text.as_bytes())?;
    let mut reader = Reader::new(symbols.as_slice());
    match read_whole_list(alloc, &mut reader) {
        Ok(numbers) => Ok(numbers),
        Err(stop) => Err(make_error(stop, reader.spot_or(text.len()))),
    }
}
