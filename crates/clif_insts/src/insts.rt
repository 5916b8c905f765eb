//! One instruction of a text.

ghost use Rattle.std.specs.Prelude.{◌≡◌, ◌<◌, ◌≤◌, length, drop, Ok, IfOk, IfErr};
ghost use Rattle.clif_lex.specs.Lexing.{tokens_of};
ghost use Rattle.clif_words.specs.Lexemes.{lexemes};
ghost use Rattle.token_reader.specs.Reading.{Gives, same};
ghost use Rattle.clif_insts.specs.Forms as forms;
ghost use Rattle.clif_insts.specs.Insts.{Found, Stopped};
ghost use Rattle.clif_insts.specs.Insts as insts;
ghost use Rattle.clif_insts.specs.Marks.{MarksFormed, inst_marks};
ghost use Rattle.clif_insts.specs.OfForm.{InstFormed};

use crate::arguments::read_few_more_values;
use crate::forms::read_inst;
use crate::opening::Opening;
use crate::raw::{RawInst, RawOperands};
use clif_lex::{TextKind, Tokens};
use clif_words::Class;
use ir_core::Few;
use std::alloc::Global;
use std::error::Error;
use std::fmt;
use token_reader::{RawName, Reader, Stop};

/// Why the tokens are no instruction, and at which token of the list. At the end it is the list's length.
#[derive(Clone, Copy, Debug, PartialEq, Eq)]
pub enum SyntaxErr {
    /// No instruction goes on with this token.
    Syntax(usize),
    /// The token is a word in the place of an opcode, and no opcode.
    UnknownOpcode(usize),
    /// The token is a word of CLIF that is left out here.
    Unsupported(usize),
    /// Memory ran out.
    NoMemory,
}

impl fmt::Display for SyntaxErr {
    fn fmt<W: fmt::Write>(&self, f: &mut fmt::Formatter<W>) -> fmt::Result {
        match self {
            SyntaxErr::Syntax(place) => write!(f, "{} at token {place}", TextKind::Syntax),
            SyntaxErr::UnknownOpcode(place) => {
                write!(f, "{} at token {place}", TextKind::UnknownOpcode)
            }
            SyntaxErr::Unsupported(place) => {
                write!(f, "{} at token {place}", TextKind::Unsupported)
            }
            SyntaxErr::NoMemory => write!(f, "out of memory"),
        }
    }
}

impl Error for SyntaxErr {}

/// The error of a stop at a token.
fn make_error(stop: Stop, place: usize) -> SyntaxErr
    ensures { result ≡ insts.error_at stop place }
{
    match stop {
        Stop::Syntax => SyntaxErr::Syntax(place),
        Stop::UnknownOpcode => SyntaxErr::UnknownOpcode(place),
        Stop::Unsupported => SyntaxErr::Unsupported(place),
        Stop::NoMemory => SyntaxErr::NoMemory,
    }
}

/// The values of a `return`, but none where they would be the results of the next line, or its alias.
#[tactic(auto, unfolding(crate::specs::Forms::own_values_at))]
fn read_own_values(alloc: Global, reader: &mut Reader<'_>) -> Result<Few<RawName>, Stop>
    ensures { Gives same reader.new result (forms.own_values_at reader.old) }
{
    if !reader.next_is(Class::Value) {
        return Ok(Few::from_vec(Vec::new(alloc)));
    }
    let behind = reader.fork();
    let value = reader.take(Class::Value)?;
    if reader.next_is(Class::Arrow) {
        *reader = behind;
        return Ok(Few::from_vec(Vec::new(alloc)));
    }
    let values = read_few_more_values(alloc, reader, value)?;
    if reader.next_is(Class::Equals) {
        *reader = behind;
        return Ok(Few::from_vec(Vec::new(alloc)));
    }
    Ok(values)
}

/// `return` and its own values.
#[tactic(auto, unfolding(crate::specs::Forms::return_line_at))]
fn read_return_line(alloc: Global, reader: &mut Reader<'_>) -> Result<RawInst, Stop>
    ensures { Gives same reader.new result (forms.return_line_at reader.old) }
{
    let opcode = reader.take_opcode(Class::Return)?;
    let values = read_own_values(alloc, reader)?;
    Ok(RawInst {
        opcode,
        suffix: None,
        operands: RawOperands::Return(values),
    })
}

/// An instruction of a block, with the values of a `return` that are its own.
#[tactic(auto, unfolding(crate::specs::Forms::one_at))]
fn read_one_inst(alloc: Global, reader: &mut Reader<'_>) -> Result<RawInst, Stop>
    ensures { Gives same reader.new result (forms.one_at reader.old) }
{
    if reader.next_is(Class::Return) {
        read_return_line(alloc, reader)
    } else {
        read_inst(alloc, reader, Opening::AfterResults)
    }
}

/// The place in the list of the first token from `i` on that does not start before the spot, or the list's length.
fn find_place(tokens: &Tokens, i: usize, spot: usize) -> usize
    requires { i ≤ length tokens.now }
    ensures { result ≡ insts.place_of tokens.now i spot }
{
    let end = tokens.len();
    let mut place = i;
    'counted: while place < end && tokens.get(place).start < spot {
        place += 1;
    }
    place
}

/// The instruction that the tokens from `i` on begin with, and the token behind it.
/// The tokens of the next line are not read: value words behind a `return` that are its results, or its alias.
///
/// # Errors
///
/// At the first token with which no instruction goes on, or at the end, by the kind of the words that the place
/// refuses.
pub fn inst(
    alloc: Global,
    text: &[u8],
    tokens: &Tokens,
    i: usize,
) -> Result<(RawInst, usize), SyntaxErr>
    requires whole { tokens_of text.now ≡ Ok tokens.now }
    requires within { i ≤ length tokens.now }
    ensures found { IfOk result
        (λ x. Found (lexemes text.now (drop i tokens.now)) (insts.place_left text.now tokens.now i) x.0 x.1) }
    ensures formed { IfOk result (λ x. InstFormed x.0) }
    ensures marks { IfOk result (λ x. MarksFormed (length text.now) (inst_marks x.0)) }
    ensures stop { IfErr result
        (λ e. Stopped (lexemes text.now (drop i tokens.now)) (insts.place_left text.now tokens.now i) e) }
{
    let mut reader = Reader::new(text, tokens, i);
    let read = read_one_inst(alloc, &mut reader);
    let place = find_place(tokens, i, reader.spot_or(text.len()));
    match read {
        Ok(found) => Ok((found, place)),
        Err(stop) => Err(make_error(stop, place)),
    }
}
