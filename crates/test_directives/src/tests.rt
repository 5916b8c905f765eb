//! The tests of a text: what its headers and the comments of each function ask for.
ghost use Rattle.std.specs.Prelude.{◌≡◌, ◌≤◌, length, map, All, IfErr, IfOk, None, Ok};
ghost use Rattle.clif_lex.specs.Lexing.{tokens_of};
ghost use Rattle.clif_lex.specs.Spelling.{AreIn, StandFrom};
ghost use Rattle.clif_read.specs.Texts.{IsModuleText};
ghost use Rattle.test_directives.specs.declared.tests.DirectiveErr.TheVariants.{NoMemory};
ghost use Rattle.test_directives.specs.Placing.{placed_of, AreAscending, InOrder};
ghost use Rattle.test_directives.specs.Reading as spec;
ghost use Rattle.test_directives.specs.Tests as tests;
ghost use Rattle.test_directives.specs.Views as views;
ghost use Rattle.test_directives.specs.Views.{IsBad, IsFile};

use crate::commands::{Command, command_of};
use crate::directives::{LineTest, Wanted};
use crate::functions::{FunctionReader, Named};
use crate::names::{first_places, spelled_names};
use crate::places::{LineCounter, PlacedComment, between, comments};
use clif_lex::{TokenKind, Tokens, place, spelling};
use clif_read::{RawFunction, RawModule};
use host_script::Script;
use ir_core::List;
use std::alloc::{AllocError, AllocFailed, Global};
use std::error::Error;
use std::fmt;

/// Why a text has no tests.
#[derive(Clone, Copy, Debug, PartialEq, Eq)]
pub enum DirectiveErr {
    /// The first line with a directive or a `test` that asks for nothing that there is.
    BadDirective(u32),
    /// Memory ran out.
    NoMemory,
}

impl From<AllocError> for DirectiveErr {
    ghost from_gives = { λ _ e. e ≡ NoMemory };

    fn from(_: AllocError) -> Self {
        DirectiveErr::NoMemory
    }
}

impl fmt::Display for DirectiveErr {
    fn fmt<W: fmt::Write>(&self, f: &mut fmt::Formatter<W>) -> fmt::Result {
        match self {
            DirectiveErr::BadDirective(line) => write!(f, "line {line} has a bad directive"),
            DirectiveErr::NoMemory => write!(f, "out of memory"),
        }
    }
}

impl Error for DirectiveErr {}

impl<T: Drop> From<AllocFailed<T>> for DirectiveErr {
    ghost from_gives = { λ _ e. e ≡ NoMemory };

    fn from(_: AllocFailed<T>) -> Self {
        DirectiveErr::NoMemory
    }
}

/// A run, and what is wanted of it.
#[derive(Drop)]
pub struct RunTest {
    /// The line of its `run:`.
    pub line: u32,
    /// The place of the first function that has the name.
    pub func: usize,
    /// The name, as the canonical text spells it.
    pub name: List<u8>,
    pub numbers: List<i128>,
    pub wanted: Wanted,
    pub script: Script,
    /// The lines of its events, where they are compared.
    pub trace: Option<Vec<List<u8>>>,
}

/// What the comments of a function ask for.
#[derive(Drop)]
pub struct FunctionTests {
    /// The name, as the canonical text spells it.
    pub name: List<u8>,
    /// The line of its word `function`.
    pub line: u32,
    pub runs: Vec<RunTest>,
    pub lines: Vec<LineTest>,
    /// The line of its first `error:`.
    pub error: Option<u32>,
    /// The comments behind its `}` that are no directives.
    pub expected: Vec<List<u8>>,
}

/// What a text asks for: its commands in order, and the tests of its functions.
#[derive(Drop)]
pub struct TestFile {
    pub commands: Vec<Command>,
    pub functions: Vec<FunctionTests>,
}

/// Whether a token is a header line.
fn is_header(kind: TokenKind) -> bool
    ensures { result ≡ tests.is_header kind }
{
    matches!(kind, TokenKind::Header)
}

/// What the header lines of a text ask for, in order.
fn commands(alloc: Global, text: &[u8], tokens: &Tokens) -> Result<Vec<Command>, DirectiveErr>
    requires short { length text.now ≤ 4294967294 }
    requires inside { AreIn text.now tokens.now }
    ensures commands { IfOk result (spec.Commands (tests.headers text.now tokens.now)) }
    ensures bad { IfErr result (spec.IsFirst (tests.bad_header (tests.headers text.now tokens.now))) }
{
    let mut list = Vec::new(alloc);
    'tokens: for i in 0..tokens.len() {
        let token = tokens.get(i);
        if !is_header(token.kind) {
            continue;
        }
        match command_of(alloc, spelling(text, token))? {
            None => {}
            Some(Some(command)) => list.push(command)?,
            Some(None) => return Err(DirectiveErr::BadDirective(place(text, token.start).line)),
        }
    }
    Ok(list)
}

/// What the comments of a function ask for, whose word `function` stands in this line.
fn read_function(
    alloc: Global,
    named: &Named<'_>,
    func: &RawFunction,
    line: u32,
    comments: &[PlacedComment<'_>],
) -> Result<FunctionTests, DirectiveErr>
    ensures tests { IfOk result (λ read. views.function_of read
        ≡ tests.tests_in line func.now (map placed_of comments.now)) }
    ensures placed { IfOk result (λ read. All (views.IsPlaced named.now.functions.now) read.runs.items) }
    ensures good { IfOk result (λ _.
        spec.bad_comment named.now.functions.now (map placed_of comments.now) ≡ None) }
    ensures bad { IfErr result
        (spec.IsFirst (spec.bad_comment named.now.functions.now (map placed_of comments.now))) }
{
    let mut reader = FunctionReader::new(alloc, named, func, line)?;
    for comment in comments {
        reader.take(alloc, comment)?;
    }
    Ok(reader.into_tests())
}

/// What the comments of each function ask for, which are these in the order of the text.
fn read_each(
    alloc: Global,
    text: &[u8],
    named: &Named<'_>,
    comments: &[PlacedComment<'_>],
) -> Result<Vec<FunctionTests>, DirectiveErr>
    requires short { length text.now ≤ 4294967294 }
    requires in_order { InOrder (map placed_of comments.now) }
    requires ascending { AreAscending text.now 0 named.now.functions.now }
    ensures functions { IfOk result
        (spec.AreTestsBy text.now (map placed_of comments.now) named.now.functions.now) }
    ensures good { IfOk result (λ _. spec.bad_by text.now (map placed_of comments.now)
        named.now.functions.now named.now.functions.now ≡ None) }
    ensures bad { IfErr result (spec.IsFirst (spec.bad_by text.now (map placed_of comments.now)
        named.now.functions.now named.now.functions.now)) }
{
    let mut list = Vec::new(alloc);
    let mut lines = LineCounter::new(text);
    let mut next = 0;
    let mut left = named.functions;
    while let Some((func, others)) = left.split_first() {
        let until = match others.first() {
            Some(next) => next.spot,
            None => text.len(),
        };
        let ahead = &comments[next..];
        let (start, end) = between(ahead, func.spot, until);
        let line = lines.line_at(func.spot);
        list.push(read_function(alloc, named, func, line, &ahead[start..end])?)?;
        next += end;
        left = others;
    }
    Ok(list)
}

/// What the comments of each function ask for.
fn read_functions(
    alloc: Global,
    text: &[u8],
    tokens: &Tokens,
    functions: &[RawFunction],
) -> Result<Vec<FunctionTests>, DirectiveErr>
    requires short { length text.now ≤ 4294967294 }
    requires stand { StandFrom text.now 0 tokens.now }
    requires ascending { AreAscending text.now 0 functions.now }
    ensures functions { IfOk result (spec.AreTests text.now tokens.now functions.now) }
    ensures good { IfOk result (λ _. tests.first_bad_of text.now tokens.now functions.now functions.now ≡ None) }
    ensures bad { IfErr result
        (spec.IsFirst (tests.first_bad_of text.now tokens.now functions.now functions.now)) }
{
    let names = spelled_names(alloc, functions)?;
    let places = first_places(alloc, names.as_slice())?;
    let comments = comments(alloc, text, tokens)?;
    read_each(
        alloc,
        text,
        &Named { functions, places },
        comments.as_slice(),
    )
}

/// What a text asks for, whose tokens and whose raw module these are. Takes time and memory linear in the text.
///
/// # Errors
///
/// The first line that has a bad directive: that of a `test` line without a reading, or of a comment. These are bad: a
/// directive without a reading, a `run:` of a function that there is not or with numbers that are no values of its
/// parameters or results, a `trace:` before any `run:`, and a `nextln:` before any `check:`, of the same function.
pub fn read_tests(
    alloc: Global,
    text: &[u8],
    tokens: &Tokens,
    raw: &RawModule,
) -> Result<TestFile, DirectiveErr>
    requires short { length text.now ≤ 4294967294 }
    requires whole { tokens_of text.now ≡ Ok tokens.now }
    requires read { IsModuleText text.now raw.now }
    ensures file { IfOk result (λ file. IsFile text.now tokens.now raw.now file) }
    ensures bad { IfErr result (λ e. IsBad text.now tokens.now raw.now e) }
{
    let commands = commands(alloc, text, tokens)?;
    let functions = read_functions(alloc, text, tokens, raw.functions.as_slice())?;
    Ok(TestFile {
        commands,
        functions,
    })
}
