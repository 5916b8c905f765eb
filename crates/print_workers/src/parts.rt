//! The text of functions, written in parts by several workers.
ghost use Rattle.std.specs.Prelude.{◌≡◌, ℕ, ◌≤◌, ◌<◌, ◌+◌, IfErr, IfOk, OnErr, OnOk, Ok, length, map, flat_map};
ghost use Rattle.std.specs.Prelude.{slice_index, slice_index_or};
ghost use Rattle.std.specs.Io.KnownBytes.{Appends};
ghost use Rattle.clk_flow.specs.Faults.{Rose, HasCause};
ghost use Rattle.clk_flow.specs.Whole.{AppendsPrefix};
ghost use Rattle.ir_text.specs.Text.{text_of};
ghost use Rattle.text_output.specs.Output.{Start, Puts};
ghost use Rattle.print_workers.specs.Parts.{AreCuts, HaveRoom, IsPart};
ghost use Rattle.print_workers.specs.declared.parts.PrintErr.TheVariants as why;

use crate::cuts::even_cuts;
use crate::functions::Functions;
use crate::putting::{numbers_between, put_functions, put_part};
use clif_numbers::FuncNumbers;
use clk_flow::{Failed, Sink};
use range_workers::{PARTS_OF_A_WORKER, map_drawn};
use std::alloc::{AllocError, Global};
use std::thread::Threads;
use text_output::{MemoryOutput, Output, SinkOutput};
use thiserror::Error;

/// Why the functions were not printed.
#[derive(Clone, Copy, PartialEq, Eq, Debug, Error)]
pub enum PrintErr {
    /// The sink failed.
    #[error("the sink failed")]
    Failed,
    /// There was no memory.
    #[error("out of memory")]
    NoMemory,
}

/// Appends the canonical text of the functions. One worker gives it to the sink as it prints, once there is room for
/// the numbers of each function; several write it into memory, part by part, before the sink is given the first byte.
/// `Failed` comes only where the sink's count of faults rose; a beginning of the text was appended then. After
/// `NoMemory` the sink is as it was.
pub fn print_with<R: Threads + Sync, F: Functions, K: Sink>(
    rt: &R,
    alloc: Global,
    functions: &F,
    workers: usize,
    sink: &mut K,
) -> Result<(), PrintErr>
    requires { 0 < workers }
    ensures whole { OnOk result
        (Appends (K.written sink.old) (K.written sink.new) (text_of (F.functions functions.now))) }
    ensures part { IfErr result
        (λ e. e ≡ why.Failed
        → AppendsPrefix (K.written sink.old) (K.written sink.new) (text_of (F.functions functions.now))) }
    ensures cause { IfErr result (λ e. e ≡ why.Failed → Rose (K.faults sink.old) (K.faults sink.new)) }
    ensures unwritten { IfErr result (λ e. e ≡ why.NoMemory → sink.new ≡ sink.old) }
    ensures later { K.faults sink.old ≤ K.faults sink.new }
{
    let printed = if workers == 1 {
        let Ok(numbers) = numbers_between(alloc, functions, 0, functions.len()) else {
            return Err(PrintErr::NoMemory);
        };
        print_alone(sink, numbers, functions)
    } else {
        let Ok(texts) = part_texts(rt, alloc, functions, workers) else {
            return Err(PrintErr::NoMemory);
        };
        print_texts(sink, texts.as_slice())
    };
    match printed {
        Ok(()) => Ok(()),
        Err(_) => Err(PrintErr::Failed),
    }
}

/// Appends the text of the functions as it is printed, by numbers that have room for each.
fn print_alone<F: Functions, K: Sink>(
    sink: &mut K,
    numbers: FuncNumbers,
    functions: &F,
) -> Result<(), Failed>
    requires { HaveRoom (F.functions functions.now) 0 (length (F.functions functions.now)) numbers }
    ensures whole { OnOk result
        (Appends (K.written sink.old) (K.written sink.new) (text_of (F.functions functions.now))) }
    ensures part { OnErr result
        (AppendsPrefix (K.written sink.old) (K.written sink.new) (text_of (F.functions functions.now))) }
    ensures cause { HasCause (K.faults sink.old) (K.faults sink.new) result }
{
    let mut numbers = numbers;
    let mut out = SinkOutput::new(sink);
    put_functions(&mut out, &mut numbers, functions);
    out.finish()
}

/// Appends texts, one behind the other.
fn print_texts<K: Sink>(sink: &mut K, texts: &[Vec<u8>]) -> Result<(), Failed>
    ensures whole { OnOk result
        (Appends (K.written sink.old) (K.written sink.new) (flat_map (λ text. text.items) texts.now)) }
    ensures part { OnErr result
        (AppendsPrefix (K.written sink.old) (K.written sink.new) (flat_map (λ text. text.items) texts.now)) }
    ensures cause { HasCause (K.faults sink.old) (K.faults sink.new) result }
{
    let mut out = SinkOutput::new(sink);
    put_all(&mut out, texts);
    out.finish()
}

/// Puts texts, one behind the other.
fn put_all<O: Output>(out: &mut O, texts: &[Vec<u8>])
    ensures { Puts O.holds out.old out.new (flat_map (λ text. text.items) texts.now) }
{
    let mut rest = texts;
    'texts: while let Some((text, after)) = rest.split_first() {
        out.put(text.as_slice());
        rest = after;
    }
}

/// The text of the functions in parts, which at most so many workers write. Only `AllocError` refuses.
fn part_texts<R: Threads + Sync, F: Functions>(
    rt: &R,
    alloc: Global,
    functions: &F,
    workers: usize,
) -> Result<Vec<Vec<u8>>, AllocError>
    requires { 0 < workers }
    ensures { IfOk result
        (λ texts. flat_map (λ text. text.items) texts.items ≡ text_of (F.functions functions.now)) }
{
    if functions.len() == 0 {
        return Ok(Vec::new(alloc));
    }
    let parts = count_parts(workers).min(functions.len());
    let cuts = even_cuts(alloc, functions, parts)?;
    let answers = texts_between(rt, alloc, functions, parts, cuts.as_slice(), workers)?;
    all_texts(alloc, answers)
}

/// How many parts so many workers write.
fn count_parts(workers: usize) -> usize
    requires { 0 < workers }
    ensures { 0 < result }
{
    workers.saturating_mul(PARTS_OF_A_WORKER)
}

/// The parts of the functions' text between its cuts, if there was memory for them. Each of so many workers draws the
/// next part when it has written one.
fn texts_between<R: Threads + Sync, F: Functions>(
    rt: &R,
    alloc: Global,
    functions: &F,
    parts: usize,
    cuts: &[usize],
    workers: usize,
) -> Result<Vec<Result<Vec<u8>, AllocError>>, AllocError>
    requires { AreCuts (length (F.functions functions.now)) parts cuts.now }
    ensures number { IfOk result (λ answers. length answers.items ≡ parts) }
    ensures each { IfOk result
        (λ answers. (i : ℕ) (d : _) → i < parts
        → IfOk (slice_index_or answers.items i d)
        (λ text. IsPart (F.functions functions.now) (slice_index cuts.now i)
        (slice_index cuts.now (i + 1)) text.items)) }
{
    let write = |i: usize| -> Result<Vec<u8>, AllocError>
        requires { (i + 1 < length cuts.now) × (slice_index cuts.now i ≤ slice_index cuts.now (i + 1))
            × (slice_index cuts.now (i + 1) ≤ length (F.functions functions.now)) }
        ensures { IfOk result
            (λ text. IsPart (F.functions functions.entry.now) (slice_index cuts.entry.now i)
            (slice_index cuts.entry.now (i + 1)) text.items) }
    { part_text(alloc, functions, cuts[i], cuts[i + 1]) };
    map_drawn(rt, alloc, parts, workers, &write)
}

/// The texts, where each of them was written. Only `AllocError` refuses.
fn all_texts(
    alloc: Global,
    answers: Vec<Result<Vec<u8>, AllocError>>,
) -> Result<Vec<Vec<u8>>, AllocError>
    ensures { IfOk result (λ texts. answers.items ≡ map (λ text. Ok text) texts.items) }
{
    let mut texts = Vec::new(alloc);
    for answer in answers {
        texts.push(answer?)?;
    }
    Ok(texts)
}

/// The part of the functions' text from a function on and before another. Only `AllocError` refuses.
fn part_text<F: Functions>(
    alloc: Global,
    functions: &F,
    from: usize,
    end: usize,
) -> Result<Vec<u8>, AllocError>
    requires { (from ≤ end) × (end ≤ length (F.functions functions.now)) }
    ensures { IfOk result (λ text. IsPart (F.functions functions.now) from end text.items) }
{
    let mut numbers = numbers_between(alloc, functions, from, end)?;
    let mut out = MemoryOutput::new(alloc);
    put_part(&mut out, &mut numbers, functions, from, end);
    out.finish()
}
