//! Modules read in stretches, by several workers at once.

ghost use Rattle.std.specs.Prelude.{◌≡◌, ◌<◌, ◌≤◌, length, true, IfOk, IfErr, IfSome};
ghost use Rattle.clif_lex.specs.Faults.{StandsWithin};
ghost use Rattle.clif_lex.specs.Lexing as lexing;
ghost use Rattle.clif_lex.specs.Stretches.{IsCut, preamble_after};
ghost use Rattle.clif_read.specs.Formed.{IsFormed};
ghost use Rattle.clif_read.specs.Texts.{IsFaultOf, IsModuleText};
ghost use Rattle.read_workers.specs.Ranges.{AreFunctions, IsFront, IsTextRange, with_functions};

use clif_lex::{TextErr, TokenKind, Tokens, next_line_with, tokens_between};
use clif_read::{RawFunction, RawModule, read_all_functions, read_text_alone, read_whole_module};
use ir_core::List;
use range_workers::{Ranges, join_items, read_by_workers};
use std::alloc::Global;
use std::thread::Threads;
use token_reader::Reader;

/// How many bytes a stretch takes at least. The tokens of so few bytes stay in a processor's own memory.
pub const STRETCH: usize = 65_536;

/// Where a stretch of a range ends: behind so many bytes the next line that begins with `function`, or the range's end.
pub fn find_stretch_end(text: &[u8], from: usize, end: usize, size: usize) -> usize
    requires { IsTextRange text.now from end }
    ensures stretch { IsTextRange text.now from result }
    ensures rest { IsTextRange text.now result end }
    ensures forward { from < end → from < result }
{
    if end - from <= size {
        return end;
    }
    let line = next_line_with(text, from + size, b"function");
    if line < end { line } else { end }
}

/// A text that is read range by range.
#[derive(Drop)]
struct TextRanges<'t> {
    text: &'t [u8],
}

impl<'t> Ranges<RawFunction> for TextRanges<'t> {
    ghost range = { λ ranges from to. IsTextRange ranges.text.now from to };

    ghost stand = { λ ranges from to functions. AreFunctions ranges.text.now from to functions };

    fn find_stretch_end(&self, from: usize, end: usize, size: usize) -> usize {
        find_stretch_end(self.text, from, end, size)
    }

    fn read_stretch(&self, alloc: Global, from: usize, end: usize) -> Option<Vec<RawFunction>> {
        let Ok(tokens) = tokens_between(alloc, self.text, from, end, false) else {
            return None;
        };
        let mut reader = Reader::new(self.text, &tokens, 0);
        read_all_functions(alloc, &mut reader)
    }

    ghost ordered = { λ ranges from to range. range.ordered };
}

/// Whether a token is one behind which a Header may stand.
fn is_preamble(kind: TokenKind) -> bool
    ensures { result ≡ lexing.is_preamble kind }
{
    matches!(kind, TokenKind::Header | TokenKind::Comment)
}

/// Whether a Header may stand behind these tokens.
fn may_go_on_with_headers(tokens: &Tokens) -> bool
    ensures { result ≡ preamble_after true tokens.now }
{
    tokens.iter().all(|token| is_preamble(token.kind))
}

/// Where the front of a text ends: behind so many bytes and a line that begins with `function`, at the next such line.
pub fn find_front_end(text: &[u8], size: usize) -> usize
    ensures { IsCut text.now result }
{
    let first = if text.starts_with(b"function") {
        0
    } else {
        next_line_with(text, 0, b"function")
    };
    next_line_with(text, first.max(size).min(text.len()), b"function")
}

/// The module that stands before a place of the text. None where it is none, a Header may still follow, or memory runs
/// out.
pub fn read_front(alloc: Global, text: &[u8], end: usize) -> Option<RawModule>
    requires within { end ≤ length text.now }
    ensures { IfSome result (λ found. IsFront text.now end found) }
{
    let Ok(tokens) = tokens_between(alloc, text, 0, end, true) else {
        return None;
    };
    if may_go_on_with_headers(&tokens) {
        return None;
    }
    let mut reader = Reader::new(text, &tokens, 0);
    match read_whole_module(alloc, &mut reader) {
        Ok(found) => Some(found),
        Err(_) => None,
    }
}

/// A module with further functions behind its own. None where memory runs out.
pub(crate) fn add_functions(front: RawModule, more: Vec<RawFunction>) -> Option<RawModule>
    ensures { IfSome result (λ found. found ≡ with_functions front more.items) }
{
    let functions = join_items(front.functions.into_vec(), more)?;
    Some(RawModule {
        headers: front.headers,
        functions: List::from_vec(functions),
    })
}

/// The module that a text is, read by so many workers at once. None where it is none, or cannot be read so.
pub fn read_text_ranges<R: Threads + Sync>(
    rt: &R,
    alloc: Global,
    text: &[u8],
    workers: usize,
    size: usize,
) -> Option<RawModule>
    ensures { IfSome result (λ found. IsModuleText text.now found) }
{
    let end = find_front_end(text, size);
    let front = read_front(alloc, text, end)?;
    let ranges = TextRanges { text };
    let rest = read_by_workers(rt, alloc, &ranges, end, text.len(), workers, size)?;
    add_functions(front, rest)
}

/// As `read_text`, by stretches of this size.
pub fn read_text_by<R: Threads + Sync>(
    rt: &R,
    alloc: Global,
    text: &[u8],
    workers: usize,
    size: usize,
) -> Result<RawModule, TextErr>
    ensures found { IfOk result (λ found. IsModuleText text.now found) }
    ensures fault { IfErr result (λ e. IsFaultOf text.now e) }
{
    match read_text_ranges(rt, alloc, text, workers, size) {
        Some(found) => Ok(found),
        None => read_text_alone(alloc, text),
    }
}

/// The module that a text is, read by so many workers at once. A short text is read by the calling thread alone.
///
/// # Errors
///
/// The first fault of the text's tokens, as `clif_lex::tokens` gives it; where there is none, the first of the module,
/// as `read_raw` gives it.
pub fn read_text<R: Threads + Sync>(
    rt: &R,
    alloc: Global,
    text: &[u8],
    workers: usize,
) -> Result<RawModule, TextErr>
    ensures found { IfOk result (λ found. IsModuleText text.now found) }
    ensures fault { IfErr result (λ e. IsFaultOf text.now e) }
    ensures formed { IfOk result (λ found. IsFormed (length text.now) found) }
    ensures within { IfErr result (λ e. StandsWithin (length text.now) e) }
{
    if text.len() / 2 < STRETCH {
        return read_text_alone(alloc, text);
    }
    read_text_by(rt, alloc, text, workers, STRETCH)
}
