//! The command `inline`.
ghost use Rattle.std.specs.Prelude.{◌≡◌, ◌<◌, ◌⊎◌, IfOk};
ghost use Rattle.inline_pass.specs.Finished.{passed};
ghost use Rattle.inlined_reads.specs.Laws.{inlined_text};
ghost use Rattle.ir_semantics.specs.Canon.{SameUpToNumbering};
ghost use Rattle.settings.specs.Shown.{inline_shown};
ghost use Rattle.clifinl.specs.InlineCommand.{IsInlineRun, policy_of};
ghost use Rattle.clifinl.specs.Runs.{Wrote, outside};

use crate::bodies::Bodies;
use crate::reading::read_module;
use crate::status::Status;
use crate::writing::write_text;
use clk_flow::{Gate, Sink, Source};
use inline_finish::Policy;
use ir_check::Checked;
use settings::InlineSettings;
use std::alloc::{AllocError, Global};
use std::marker::Brand;
use std::mem::forget;
use std::sync::Wait;
use std::sync::ledger::{Blank, Ledger};
use std::thread::Threads;
use worker_driver::{Finished, Steps, finish_with};

/// Reads a module and writes the canonical text of its finished bodies, where it is accepted. The workers share the job
/// of reading, of the pass and of printing; what is written does not depend on their number. The gate is told of each
/// function that a worker begins.
pub(crate) fn inline<R: Threads + Wait + Sync, I: Source, O: Sink, G: Gate>(
    rt: &R,
    alloc: Global,
    options: &InlineSettings,
    input: &mut I,
    out: &mut O,
    gate: &G,
) -> Status
    ensures run { IsInlineRun (inline_shown options.now)
        (outside (I.left input.old) (I.faults input.old) (O.written out.old) (O.faults out.old))
        (outside (I.left input.new) (I.faults input.new) (O.written out.new) (O.faults out.new)) result }
    ensures nothing { (out.new ≡ out.old) ⊎ ((result ≡ Status.Done) ⊎ (result ≡ Status.WriteFault)) }
{
    inlined_reads::laws::inlined_text_is_kept();
    match read_module(rt, alloc, options.workers, input) {
        Ok(checked) => {
            let status = write_inlined(rt, alloc, &checked, options, out, gate);
            // The program ends here: its memory goes with it, and not part by part before.
            forget(checked);
            status
        }
        Err(status) => status,
    }
}

/// Writes the canonical text of a module's finished bodies.
fn write_inlined<R: Threads + Wait + Sync, O: Sink, G: Gate>(
    rt: &R,
    alloc: Global,
    checked: &Checked,
    options: &InlineSettings,
    out: &mut O,
    gate: &G,
) -> Status
    ensures wrote { Wrote (inlined_text (policy_of (inline_shown options.now)) checked.now)
        (O.written out.old) (O.written out.new) (O.faults out.old) (O.faults out.new) result }
    ensures nothing { (out.new ≡ out.old) ⊎ ((result ≡ Status.Done) ⊎ (result ≡ Status.WriteFault)) }
{
    inlined_reads::laws::inlined_text_is_one();
    let workers = options.workers;
    match pass_counted::<R, G, Brand>(rt, alloc, checked, options, gate, Blank::new(1)) {
        Ok(finished) => {
            let bodies = Bodies {
                finished: &finished,
            };
            let status = write_text(rt, alloc, &bodies, workers, out);
            forget(finished);
            status
        }
        Err(_) => Status::NoMemory,
    }
}

/// The finished bodies of a module, with a counter of the steps, which nobody reads here.
fn pass_counted<R: Threads + Wait + Sync, G: Gate, L: Ledger>(
    rt: &R,
    alloc: Global,
    checked: &Checked,
    options: &InlineSettings,
    gate: &G,
    blank: Blank,
) -> Result<Finished, AllocError>
    requires blank { (blank.name ≡ L.name) × (blank.parts ≡ L.parts) × (0 < blank.parts) }
    ensures { IfOk result (λ r. SameUpToNumbering
        (passed (policy_of (inline_shown options.now)) checked.now) r) }
{
    let mut steps: Steps<L> = Steps::open(blank);
    let policy = Policy {
        callee_size: options.callee_size,
        caller_size: options.caller_size,
    };
    finish_with(
        rt,
        alloc,
        checked,
        policy,
        options.workers,
        gate,
        &mut steps,
    )
}
