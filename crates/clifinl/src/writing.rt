//! Writing what a command makes of a module.
ghost use Rattle.std.specs.Prelude.{◌≡◌, ◌<◌, ◌⊎◌, ◌++◌, OnErr, OnOk, codes, decimal};
ghost use Rattle.std.specs.Io.KnownBytes.{Appends};
ghost use Rattle.clk_flow.specs.Faults.{HasCause};
ghost use Rattle.clk_flow.specs.Whole.{AppendsPrefix};
ghost use Rattle.ir_text.specs.Text.{text_of};
ghost use Rattle.clifinl.specs.Runs.{Wrote, line_of_count};

use crate::pieces::put_all;
use crate::status::Status;
use canonical_text::CanonicalText;
use clk_flow::{Failed, Sink};
use itoa::Buffer;
use print_workers::{Functions, PrintErr, print_with};
use std::alloc::Global;
use std::sync::Wait;
use std::thread::Threads;

/// Writes how many functions there are. It takes no memory.
pub(crate) fn write_count<O: Sink>(count: usize, out: &mut O) -> Status
    ensures wrote { Wrote (line_of_count count) (O.written out.old) (O.written out.new)
        (O.faults out.old) (O.faults out.new) result }
    ensures some { (result ≡ Status.Done) ⊎ (result ≡ Status.WriteFault) }
{
    match put_count(out, count) {
        Ok(()) => Status::Done,
        Err(_) => Status::WriteFault,
    }
}

/// Writes a canonical text. It takes no memory.
pub(crate) fn write_canonical_text<O: Sink>(text: &CanonicalText, out: &mut O) -> Status
    ensures wrote { Wrote text.now (O.written out.old) (O.written out.new)
        (O.faults out.old) (O.faults out.new) result }
    ensures some { (result ≡ Status.Done) ⊎ (result ≡ Status.WriteFault) }
{
    match text.write(out) {
        Ok(()) => Status::Done,
        Err(_) => Status::WriteFault,
    }
}

/// Writes the line of a count.
fn put_count<K: Sink>(sink: &mut K, count: usize) -> Result<(), Failed>
    ensures whole { OnOk result
        (Appends (K.written sink.old) (K.written sink.new) (codes "ok " ++ decimal count ++ codes "\n")) }
    ensures part { OnErr result
        (AppendsPrefix (K.written sink.old) (K.written sink.new) (codes "ok " ++ decimal count ++ codes "\n")) }
    ensures cause { HasCause (K.faults sink.old) (K.faults sink.new) result }
{
    let mut number = Buffer::new();
    put_all(
        sink,
        &[
            b"ok ".as_slice(),
            number.format(count).as_bytes(),
            b"\n".as_slice(),
        ],
    )
}

/// Writes the canonical text of functions by so many workers.
pub(crate) fn write_text<R: Threads + Wait + Sync, F: Functions, O: Sink>(
    rt: &R,
    alloc: Global,
    functions: &F,
    workers: usize,
    out: &mut O,
) -> Status
    requires { 0 < workers }
    ensures wrote { Wrote (text_of (F.functions functions.now)) (O.written out.old) (O.written out.new)
        (O.faults out.old) (O.faults out.new) result }
    ensures nothing { (out.new ≡ out.old) ⊎ ((result ≡ Status.Done) ⊎ (result ≡ Status.WriteFault)) }
{
    match print_with(rt, alloc, functions, workers, out) {
        Ok(()) => Status::Done,
        Err(PrintErr::Failed) => Status::WriteFault,
        Err(PrintErr::NoMemory) => Status::NoMemory,
    }
}
