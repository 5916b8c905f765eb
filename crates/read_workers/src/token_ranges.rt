//! Modules read from the list of a text's tokens, by several workers at once.

ghost use Rattle.std.specs.Prelude.{◌≡◌, ◌<◌, length, slice_range, Ok, IfOk, IfErr, IfSome};
ghost use Rattle.clif_lex.specs.Faults.{StandsWithin};
ghost use Rattle.clif_lex.specs.Lexing.{tokens_of};
ghost use Rattle.clif_words.specs.Lexemes.{lexemes};
ghost use Rattle.clif_read.specs.Formed.{IsFormed};
ghost use Rattle.read_workers.specs.Ranges.{AreListed, IsTokenRange};
ghost use Rattle.clif_read.specs.Texts.{IsModule, Stopped};

use crate::text_ranges::add_functions;
use clif_lex::{TextErr, Tokens};
use clif_read::{RawFunction, RawModule, read_all_functions, read_raw_alone, read_whole_module};
use range_workers::{Ranges, read_by_workers};
use std::alloc::Global;
use std::thread::Threads;
use token_reader::Reader;

/// How many tokens a stretch takes at least.
const STRETCH: usize = 16_384;

/// The next place of a range of tokens at which the word `function` stands, or the range's end.
fn find_next_function(text: &[u8], tokens: &Tokens, from: usize, end: usize) -> usize
    requires { IsTokenRange text.now tokens.now from end }
    ensures before { IsTokenRange text.now tokens.now from result }
    ensures behind { IsTokenRange text.now tokens.now result end }
{
    let mut at = from;
    'tokens: while at < end {
        if tokens.spelling(text, at) == b"function".as_slice() {
            return at;
        }
        at += 1;
    }
    at
}

/// Where a stretch of a range of tokens ends: behind so many tokens and one more at the next function, or at the
/// range's end.
fn find_token_stretch_end(
    text: &[u8],
    tokens: &Tokens,
    from: usize,
    end: usize,
    size: usize,
) -> usize
    requires { IsTokenRange text.now tokens.now from end }
    ensures stretch { IsTokenRange text.now tokens.now from result }
    ensures rest { IsTokenRange text.now tokens.now result end }
    ensures forward { from < end → from < result }
{
    if end - from <= size {
        return end;
    }
    find_next_function(text, tokens, from + size + 1, end)
}

/// A list of a text's tokens that is read range by range.
#[derive(Drop)]
struct TokenRanges<'t> {
    text: &'t [u8],
    tokens: &'t Tokens,
}

impl<'t> Ranges<RawFunction> for TokenRanges<'t> {
    ghost range = { λ ranges from to. IsTokenRange ranges.text.now ranges.tokens.now from to };

    ghost stand = { λ ranges from to functions. IsTokenRange ranges.text.now ranges.tokens.now from to
        × AreListed ranges.text.now ranges.tokens.now from to functions };

    fn find_stretch_end(&self, from: usize, end: usize, size: usize) -> usize {
        find_token_stretch_end(self.text, self.tokens, from, end, size)
    }

    fn read_stretch(&self, alloc: Global, from: usize, end: usize) -> Option<Vec<RawFunction>> {
        let mut reader = Reader::between(self.text, self.tokens, from, end);
        read_all_functions(alloc, &mut reader)
    }

    ghost ordered = { λ ranges from to range. range.ordered };
}

/// The module that stands before a place of the list. None where it is none, or memory runs out.
fn read_front(alloc: Global, text: &[u8], tokens: &Tokens, end: usize) -> Option<RawModule>
    requires { IsTokenRange text.now tokens.now 0 end }
    ensures { IfSome result (λ found. IsModule (lexemes text.now (slice_range tokens.now 0 «end»)) found) }
{
    let mut reader = Reader::between(text, tokens, 0, end);
    match read_whole_module(alloc, &mut reader) {
        Ok(found) => Some(found),
        Err(_) => None,
    }
}

/// The module that a text is, from the text's tokens, read by so many workers at once. None where it is none, or cannot
/// be read so.
pub fn read_token_ranges<R: Threads + Sync>(
    rt: &R,
    alloc: Global,
    text: &[u8],
    tokens: &Tokens,
    workers: usize,
    size: usize,
) -> Option<RawModule>
    requires whole { tokens_of text.now ≡ Ok tokens.now }
    ensures { IfSome result (λ found. IsModule (lexemes text.now tokens.now) found) }
{
    let end = tokens.len();
    let first = find_next_function(text, tokens, 0, end);
    let front = read_front(alloc, text, tokens, first)?;
    let ranges = TokenRanges { text, tokens };
    let rest = read_by_workers(rt, alloc, &ranges, first, end, workers, size)?;
    add_functions(front, rest)
}

/// As `read_raw`, by stretches of so many tokens.
pub fn read_raw_by<R: Threads + Sync>(
    rt: &R,
    alloc: Global,
    text: &[u8],
    tokens: &Tokens,
    workers: usize,
    size: usize,
) -> Result<RawModule, TextErr>
    requires whole { tokens_of text.now ≡ Ok tokens.now }
    ensures found { IfOk result (λ m. IsModule (lexemes text.now tokens.now) m) }
    ensures stop { IfErr result (λ e. Stopped (lexemes text.now tokens.now) (length text.now) e) }
{
    match read_token_ranges(rt, alloc, text, tokens, workers, size) {
        Some(found) => Ok(found),
        None => read_raw_alone(alloc, text, tokens),
    }
}

/// The module that a text is, from the text's tokens, read by so many workers at once.
/// One worker, and a text of few tokens, is read by the calling thread alone.
///
/// # Errors
///
/// At the first token with which the text begins no module, or at its end: `UnknownOpcode` at a word in the place of an
/// opcode, `Unsupported` at a word of CLIF that is left out here, else `Syntax`.
pub fn read_raw<R: Threads + Sync>(
    rt: &R,
    alloc: Global,
    text: &[u8],
    tokens: &Tokens,
    workers: usize,
) -> Result<RawModule, TextErr>
    requires whole { tokens_of text.now ≡ Ok tokens.now }
    ensures found { IfOk result (λ m. IsModule (lexemes text.now tokens.now) m) }
    ensures stop { IfErr result (λ e. Stopped (lexemes text.now tokens.now) (length text.now) e) }
    ensures formed { IfOk result (λ m. IsFormed (length text.now) m) }
    ensures within { IfErr result (λ e. StandsWithin (length text.now) e) }
{
    if workers <= 1 || tokens.len() / 2 < STRETCH {
        return read_raw_alone(alloc, text, tokens);
    }
    read_raw_by(rt, alloc, text, tokens, workers, STRETCH)
}
