//! The command `gen`.
ghost use Rattle.std.specs.Prelude.{◌≡◌, ◌<◌, ◌⊎◌, IfOk};
ghost use Rattle.gen_mod.specs.Generated.{generated};
ghost use Rattle.ir_semantics.specs.Accepted.{Accepted};
ghost use Rattle.ir_text.specs.Writable.{Writable};
ghost use Rattle.settings.specs.Shown.{gen_shown, inline_shown};
ghost use Rattle.clifinl.specs.GenCommand.{gen_text, summary_of, summary_text};
ghost use Rattle.clifinl.specs.InlineCommand.{policy_of};
ghost use Rattle.clifinl.specs.Measured.{measured};
ghost use Rattle.clifinl.specs.PrintCommand.{ReadsBack};
ghost use Rattle.clifinl.specs.Runs.{Wrote};

use crate::commands::WORKERS;
use crate::laws::canonical_text_reads_back;
use crate::status::Status;
use crate::summary::{Summary, measure, write_summary};
use crate::writing::write_text;
use clk_flow::{Gate, Sink};
use gen_mod::generate;
use ir_check::Checked;
use ir_core::Module;
use settings::{GenSettings, InlineSettings};
use std::alloc::{AllocError, Global};
use std::marker::Brand;
use std::mem::forget;
use std::sync::Wait;
use std::sync::ledger::{Blank, Ledger};
use std::thread::Threads;
use worker_driver::Steps;

/// Makes a module, and writes its canonical text, or what the pass over it does, in numbers. The gate is told of each
/// function that a worker begins.
pub(crate) fn generated<R: Threads + Wait + Sync, O: Sink, G: Gate>(
    rt: &R,
    alloc: Global,
    options: &GenSettings,
    out: &mut O,
    gate: &G,
) -> Status
    ensures wrote { Wrote (gen_text (gen_shown options.now))
        (O.written out.old) (O.written out.new) (O.faults out.old) (O.faults out.new) result }
    ensures reads_back { ReadsBack
        (generated (gen_shown options.now).number (gen_shown options.now).functions) }
    ensures nothing { (out.new ≡ out.old) ⊎ ((result ≡ Status.Done) ⊎ (result ≡ Status.WriteFault)) }
{
    canonical_text_reads_back();
    gen_mod::laws::generated_is_accepted();
    let Ok(module) = generate(alloc, options.number, options.functions) else {
        return Status::NoMemory;
    };
    if options.text {
        let status = write_text(rt, alloc, &module, WORKERS, out);
        // The program ends here: its memory goes with it, and not part by part before.
        forget(module);
        return status;
    }
    write_passed(rt, alloc, module, &options.pass, out, gate)
}

/// Writes what the pass does to a module, in numbers.
fn write_passed<R: Threads + Wait + Sync, O: Sink, G: Gate>(
    rt: &R,
    alloc: Global,
    module: Module,
    options: &InlineSettings,
    out: &mut O,
    gate: &G,
) -> Status
    requires accepted { Accepted «module» }
    requires writable { Writable «module» }
    ensures wrote { Wrote (summary_text (summary_of (policy_of (inline_shown options.now)) «module»))
        (O.written out.old) (O.written out.new) (O.faults out.old) (O.faults out.new) result }
    ensures nothing { (out.new ≡ out.old) ⊎ ((result ≡ Status.Done) ⊎ (result ≡ Status.WriteFault)) }
{
    let checked = Checked::of_accepted(module);
    let summary = summarize::<R, G, Brand>(rt, alloc, &checked, options, gate, Blank::new(1));
    forget(checked);
    match summary {
        Ok(summary) => write_summary(&summary, out),
        Err(_) => Status::NoMemory,
    }
}

/// What the pass does to a module, in numbers, with a counter of the steps that begins at 0.
fn summarize<R: Threads + Wait + Sync, G: Gate, L: Ledger>(
    rt: &R,
    alloc: Global,
    checked: &Checked,
    options: &InlineSettings,
    gate: &G,
    blank: Blank,
) -> Result<Summary, AllocError>
    requires writable { Writable checked.now }
    requires blank { (blank.name ≡ L.name) × (blank.parts ≡ L.parts) × (0 < blank.parts) }
    ensures { IfOk result (λ s. measured s ≡ summary_of (policy_of (inline_shown options.now)) checked.now) }
{
    let mut steps: Steps<L> = Steps::open(blank);
    measure(rt, alloc, checked, options, gate, &mut steps)
}
