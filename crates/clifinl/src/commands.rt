//! The commands.
ghost use Rattle.std.specs.Prelude.{◌≡◌, ◌⊎◌};
ghost use Rattle.clif_check.specs.Faults.{IsAccepted};
ghost use Rattle.clifinl.specs.PrintCommand.{IsPrintRun};
ghost use Rattle.clifinl.specs.Runs.{IsFirstFault, IsRun, count_line, outside};

use crate::laws::printed_text_reads_back;
use crate::reading::{read_canonical_text, read_heads};
use crate::status::Status;
use crate::writing::{write_canonical_text, write_count};
use clk_flow::{Sink, Source};
use std::alloc::Global;
use std::mem::forget;
use std::sync::Wait;
use std::thread::Threads;

/// How many workers share the job of `check`, `print` and `run`.
pub(crate) const WORKERS: usize = 4;

/// Reads a module and writes how many functions it has, where it is accepted.
pub(crate) fn check<R: Threads + Wait + Sync, I: Source, O: Sink>(
    rt: &R,
    alloc: Global,
    input: &mut I,
    out: &mut O,
) -> Status
    ensures run { IsRun IsAccepted IsFirstFault count_line
        (outside (I.left input.old) (I.faults input.old) (O.written out.old) (O.faults out.old))
        (outside (I.left input.new) (I.faults input.new) (O.written out.new) (O.faults out.new)) result }
    ensures nothing { (out.new ≡ out.old) ⊎ ((result ≡ Status.Done) ⊎ (result ≡ Status.WriteFault)) }
{
    match read_heads(rt, alloc, WORKERS, input) {
        Ok(heads) => {
            let status = write_count(heads.funcs().len(), out);
            // The program ends here: its memory goes with it, and not part by part before.
            forget(heads);
            status
        }
        Err(status) => status,
    }
}

/// Reads a module and writes its canonical text, where it is accepted.
pub(crate) fn print<R: Threads + Wait + Sync, I: Source, O: Sink>(
    rt: &R,
    alloc: Global,
    input: &mut I,
    out: &mut O,
) -> Status
    ensures run { IsPrintRun
        (outside (I.left input.old) (I.faults input.old) (O.written out.old) (O.faults out.old))
        (outside (I.left input.new) (I.faults input.new) (O.written out.new) (O.faults out.new)) result }
    ensures nothing { (out.new ≡ out.old) ⊎ ((result ≡ Status.Done) ⊎ (result ≡ Status.WriteFault)) }
{
    printed_text_reads_back();
    match read_canonical_text(rt, alloc, WORKERS, input) {
        Ok(written) => {
            let status = write_canonical_text(&written, out);
            forget(written);
            status
        }
        Err(status) => status,
    }
}
