//! Texts read stretch by stretch: of the raw functions only one for each worker is there at a time.
ghost use Rattle.std.specs.Prelude.{◌≢◌, ◌≤◌, [], length, IfSome};
ghost use Rattle.ir_core.specs.Lists.{Each};
ghost use Rattle.read_workers.specs.Ranges.{IsTextRange};
ghost use Rattle.clif_names.specs.Sizes.{most_functions};
ghost use Rattle.clif_check.specs.Stretches.{AreKept, KeptFrom, KeptOfRange, KeptOfFront, KeptOfText, KeptOfTokens};

use crate::parts::{Part, keep_function};
use clif_lex::tokens_between;
use clif_names::MOST_FUNCTIONS;
use clif_read::{RawFunction, read_function};
use clif_words::Class;
use ir_core::{Boxed, Func};
use range_workers::{Ranges, read_by_workers};
use read_workers::{find_front_end, find_stretch_end, read_front};
use std::alloc::Global;
use std::thread::Threads;
use token_reader::Reader;

/// What stays of these functions. `None` where nothing stays of one.
fn keep_functions(alloc: Global, raws: &[RawFunction], part: Part) -> Option<Vec<Boxed<Func>>>
    requires { Each (λ r. r.blocks ≢ []) raws.now }
    ensures { IfSome result (λ kept. AreKept part raws.now kept.items) }
{
    let mut functions = Vec::new(alloc);
    for raw in raws {
        let func = keep_function(alloc, raw, part)?;
        if functions.push(func).is_err() {
            return None;
        }
    }
    Some(functions)
}

/// What stays of the functions of all the tokens that are left. Each raw function is let go before the next is read,
/// whose lists then take its memory. `None` where anything else stands there, or nothing stays of one.
fn read_functions(alloc: Global, reader: &mut Reader<'_>, part: Part) -> Option<Vec<Boxed<Func>>>
    ensures { IfSome result (λ kept. KeptOfTokens part reader.old kept.items) }
{
    let mut functions = Vec::new(alloc);
    'functions: while reader.next_is(Class::Function) {
        let Ok(raw) = read_function(alloc, reader) else {
            return None;
        };
        let func = keep_function(alloc, &raw, part)?;
        if functions.push(func).is_err() {
            return None;
        }
    }
    if !reader.is_at_end() {
        return None;
    }
    Some(functions)
}

/// A text whose functions are read range by range, and what stays of each. Its first stretch is its front, which alone
/// may have Headers.
#[derive(Drop)]
struct TextRanges<'t> {
    text: &'t [u8],
    part: Part,
}

impl TextRanges<'_> {
    /// What stays of the functions of the front of the text, up to this place.
    fn keep_front(&self, alloc: Global, end: usize) -> Option<Vec<Boxed<Func>>>
        requires { end ≤ length self.now.text.now }
        ensures { IfSome result (λ kept. KeptOfFront self.now.part self.now.text.now end kept.items) }
    {
        let front = read_front(alloc, self.text, end)?;
        keep_functions(alloc, front.functions.as_slice(), self.part)
    }

    /// What stays of the functions between two places of the text.
    fn keep_stretch(&self, alloc: Global, from: usize, end: usize) -> Option<Vec<Boxed<Func>>>
        requires { IsTextRange self.now.text.now from end }
        ensures { IfSome result (λ kept. KeptOfRange self.now.part self.now.text.now from end kept.items) }
    {
        let Ok(tokens) = tokens_between(alloc, self.text, from, end, false) else {
            return None;
        };
        let mut reader = Reader::new(self.text, &tokens, 0);
        read_functions(alloc, &mut reader, self.part)
    }
}

impl<'t> Ranges<Boxed<Func>> for TextRanges<'t> {
    ghost range = { λ ranges from to. IsTextRange ranges.text.now from to };

    ghost stand = { λ ranges from to kept. KeptFrom ranges.part ranges.text.now from to kept };

    fn find_stretch_end(&self, from: usize, end: usize, size: usize) -> usize {
        if from > 0 {
            return find_stretch_end(self.text, from, end, size);
        }
        let front = find_front_end(self.text, 0);
        if 0 < front && front < end { front } else { end }
    }

    fn read_stretch(&self, alloc: Global, from: usize, end: usize) -> Option<Vec<Boxed<Func>>> {
        if from > 0 {
            self.keep_stretch(alloc, from, end)
        } else {
            self.keep_front(alloc, end)
        }
    }

    ghost ordered = { λ ranges from to range. range.ordered };
}

/// What stays of the functions of a text, read by so many workers at once, by stretches of this size. `None` where the
/// text has a fault of its tokens, its syntax or its numbers, where it cannot be read so, where nothing stays of a
/// function, or memory runs out.
pub(crate) fn read_parts<R: Threads + Sync>(
    rt: &R,
    alloc: Global,
    text: &[u8],
    workers: usize,
    size: usize,
    part: Part,
) -> Option<Vec<Boxed<Func>>>
    ensures kept { IfSome result (λ kept. KeptOfText part text.now kept.items) }
    ensures few { IfSome result (λ kept. length kept.items ≤ most_functions) }
{
    let ranges = TextRanges { text, part };
    let kept = read_by_workers(rt, alloc, &ranges, 0, text.len(), workers, size)?;
    if kept.len() > MOST_FUNCTIONS {
        return None;
    }
    Some(kept)
}
