//! The command `test`.
ghost use Rattle.std.specs.Prelude.{◌≡◌, ◌⊎◌, IfErr, IfOk};
ghost use Rattle.clifinl.specs.Runs.{outside};
ghost use Rattle.clifinl.specs.TestCommand.{HasNoReport, IsTestRun, ReportEnds, TookReport};

use crate::reading::{place_of, read_input};
use crate::status::{Refusal, Status};
use clk_flow::{Sink, Source, put};
use filetest::{Report, TestErr, run_tests};
use std::alloc::Global;
use std::mem::forget;

/// Carries out the tests that stand in the source's text, and writes their report.
pub(crate) fn test<I: Source, O: Sink>(alloc: Global, input: &mut I, out: &mut O) -> Status
    ensures run { IsTestRun
        (outside (I.left input.old) (I.faults input.old) (O.written out.old) (O.faults out.old))
        (outside (I.left input.new) (I.faults input.new) (O.written out.new) (O.faults out.new)) result }
    ensures nothing { (out.new ≡ out.old)
        ⊎ ((result ≡ Status.Done) ⊎ ((result ≡ Status.ChecksFailed) ⊎ (result ≡ Status.WriteFault))) }
{
    match read_report(alloc, input) {
        Ok(report) => {
            let status = write_report(&report, out);
            // The program ends here: its memory goes with it, and not part by part before.
            forget(report);
            status
        }
        Err(status) => status,
    }
}

/// The report of the tests that stand in the source's text.
///
/// # Errors
///
/// The status of a run that stops here.
fn read_report<I: Source>(alloc: Global, input: &mut I) -> Result<Report, Status>
    ensures report { IfOk result (λ r. TookReport (I.left input.old) (I.left input.new) r) }
    ensures stopped { IfErr result (λ status. HasNoReport (I.left input.old) (I.left input.new)
        (I.faults input.old) (I.faults input.new) status) }
{
    let bytes = match read_input(alloc, input) {
        Ok(bytes) => bytes,
        Err(status) => return Err(status),
    };
    match run_tests(alloc, bytes.as_slice()) {
        Ok(report) => Ok(report),
        Err(TestErr::BadDirective(line)) => Err(Status::Refused(Refusal::BadDirective(line))),
        Err(TestErr::Text { kind, spot }) => {
            let place = place_of(bytes.as_slice(), spot);
            Err(Status::Refused(Refusal::Text(kind, place)))
        }
        Err(TestErr::NoMemory) => Err(Status::NoMemory),
    }
}

/// Writes a report. It takes no memory.
fn write_report<O: Sink>(report: &Report, out: &mut O) -> Status
    ensures wrote { ReportEnds report.now (O.written out.old) (O.written out.new)
        (O.faults out.old) (O.faults out.new) result }
    ensures some { (result ≡ Status.Done) ⊎ ((result ≡ Status.ChecksFailed) ⊎ (result ≡ Status.WriteFault)) }
{
    match put(out, report.text.as_slice()) {
        Ok(()) if report.failed == 0 => Status::Done,
        Ok(()) => Status::ChecksFailed,
        Err(_) => Status::WriteFault,
    }
}
