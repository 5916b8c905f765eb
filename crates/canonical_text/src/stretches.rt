//! Texts read, checked and printed stretch by stretch: a body is there only until it is printed.
ghost use Rattle.std.specs.Prelude.{◌≡◌, ◌≢◌, [], ◌∷◌, List, IfOk, IfSome, flat_map};
ghost use Rattle.ir_core.specs.Lists.{Each};
ghost use Rattle.read_workers.specs.Ranges.{IsTextRange};
ghost use Rattle.canonical_text.specs.Accepted.{IsAcceptedText};
ghost use Rattle.canonical_text.specs.Printed.{ArePrinted, PrintedOfTokens};
ghost use Rattle.canonical_text.specs.Stretches.{PrintedOfRange, PrintedOfText, heads_in, text_in};

use crate::functions::{put_all_meant, put_tokens};
use crate::written::CanonicalText;
use clif_check::declare_all;
use clif_check::laws::accepted_by_heads;
use clif_lex::tokens_between;
use clif_names::MOST_FUNCTIONS;
use clif_read::RawFunction;
use ir_core::{Boxed, Func, Heads};
use range_workers::{Ranges, join_items, read_by_workers};
use read_workers::{find_front_end, find_stretch_end, read_front};
use std::alloc::{AllocError, Global};
use std::thread::Threads;
use text_output::MemoryOutput;
use token_reader::Reader;

/// What stays of a stretch of a text: the heads of its functions, and their canonical text, each behind an empty line.
#[derive(Drop)]
pub(crate) struct Stretch {
    heads: Vec<Boxed<Func>>,
    text: Vec<u8>,
}

/// What stays of the functions that these mean. `None` where one of them is not printed.
fn print_all_meant(alloc: Global, raws: &[RawFunction]) -> Option<Stretch>
    requires { Each (λ r. r.blocks ≢ []) raws.now }
    ensures { IfSome result (λ made. ArePrinted raws.now made.heads.items made.text.items) }
{
    let mut out = MemoryOutput::new(alloc);
    let heads = put_all_meant(&mut out, alloc, raws)?;
    match out.finish() {
        Ok(mut text) => {
            text.shrink_to_fit();
            Some(Stretch { heads, text })
        }
        Err(_) => None,
    }
}

/// What stays of the functions of all the tokens that are left. `None` where anything else stands there, or one of them
/// is not printed.
fn print_tokens(alloc: Global, reader: &mut Reader<'_>) -> Option<Stretch>
    ensures { IfSome result (λ made. PrintedOfTokens reader.old made.heads.items made.text.items) }
{
    let mut out = MemoryOutput::new(alloc);
    let heads = put_tokens(&mut out, alloc, reader)?;
    match out.finish() {
        Ok(mut text) => {
            text.shrink_to_fit();
            Some(Stretch { heads, text })
        }
        Err(_) => None,
    }
}

/// A list of one stretch. `None` where memory runs out.
fn list_one(alloc: Global, stretch: Stretch) -> Option<Vec<Stretch>>
    ensures { IfSome result (λ list. list.items ≡ stretch ∷ []) }
{
    let mut list = Vec::new(alloc);
    if list.push(stretch).is_err() {
        return None;
    }
    Some(list)
}

/// A text whose functions are printed range by range.
#[derive(Drop)]
struct TextRanges<'t> {
    text: &'t [u8],
}

impl<'t> Ranges<Stretch> for TextRanges<'t> {
    ghost range = { λ ranges from to. IsTextRange ranges.text.now from to };

    ghost stand = { λ ranges from to stretches. PrintedOfRange ranges.text.now from to stretches };

    fn find_stretch_end(&self, from: usize, end: usize, size: usize) -> usize {
        find_stretch_end(self.text, from, end, size)
    }

    fn read_stretch(&self, alloc: Global, from: usize, end: usize) -> Option<Vec<Stretch>> {
        let Ok(tokens) = tokens_between(alloc, self.text, from, end, false) else {
            return None;
        };
        let mut reader = Reader::new(self.text, &tokens, 0);
        let stretch = print_tokens(alloc, &mut reader)?;
        list_one(alloc, stretch)
    }

    ghost ordered = { λ ranges from to range. range.ordered };
}

/// What stays of the functions of a text, read by so many workers at once, by stretches of this size. `None` where one
/// of them is not printed, where the text cannot be read so, or memory runs out.
fn print_ranges<R: Threads + Sync>(
    rt: &R,
    alloc: Global,
    text: &[u8],
    workers: usize,
    size: usize,
) -> Option<Vec<Stretch>>
    ensures { IfSome result (λ stretches. PrintedOfText text.now stretches.items) }
{
    let end = find_front_end(text, 0);
    let front = read_front(alloc, text, end)?;
    let stretch = print_all_meant(alloc, front.functions.as_slice())?;
    let first = list_one(alloc, stretch)?;
    let ranges = TextRanges { text };
    let rest = read_by_workers(rt, alloc, &ranges, end, text.len(), workers, size)?;
    join_items(first, rest)
}

/// How many functions the stretches have. Where there are too many to count, the most that can be counted.
fn count_heads(stretches: &[Stretch]) -> usize {
    let mut count = 0usize;
    for stretch in stretches {
        count = count.saturating_add(stretch.heads.len());
    }
    count
}

/// The heads of all stretches, and their texts, which stay where they are.
#[derive(Drop)]
struct Parts {
    heads: Vec<Boxed<Func>>,
    texts: Vec<Vec<u8>>,
}

/// Takes stretches apart. Only `AllocError` refuses.
fn take_apart(alloc: Global, stretches: Vec<Stretch>) -> Result<Parts, AllocError>
    ensures heads { IfOk result (λ parts. parts.heads.items ≡ heads_in stretches.items) }
    ensures texts { IfOk result
        (λ parts. flat_map (λ text. text.items) parts.texts.items ≡ text_in stretches.items) }
{
    let mut heads = Vec::with_capacity(alloc, count_heads(stretches.as_slice()))?;
    let mut texts = Vec::with_capacity(alloc, stretches.len())?;
    for stretch in stretches {
        let mut own = stretch.heads;
        heads.append(&mut own)?;
        texts.push(stretch.text)?;
    }
    Ok(Parts { heads, texts })
}

/// The canonical text of an accepted text, printed by so many workers at once, by stretches of this size. `None` where
/// the text is not accepted, where it cannot be read so, or memory runs out.
pub(crate) fn print_stretches<R: Threads + Sync>(
    rt: &R,
    alloc: Global,
    text: &[u8],
    workers: usize,
    size: usize,
) -> Option<CanonicalText>
    ensures { IfSome result (λ written. IsAcceptedText text.now written) }
{
    let stretches = print_ranges(rt, alloc, text, workers, size)?;
    let Ok(parts) = take_apart(alloc, stretches) else {
        return None;
    };
    if parts.heads.len() > MOST_FUNCTIONS {
        return None;
    }
    let Ok(Some(heads)) = Heads::of_functions(alloc, parts.heads) else {
        return None;
    };
    if !declare_all(rt, alloc, &heads, workers) {
        return None;
    }
    accepted_by_heads();
    Some(CanonicalText::of_texts(parts.texts, Some(heads)))
}
