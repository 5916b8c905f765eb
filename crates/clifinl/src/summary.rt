//! What the pass does to a module, in numbers.
ghost use Rattle.std.specs.Prelude.{◌≡◌, ◌+◌, ◌≤◌, ◌⊎◌, IfOk, OnOk, OnErr, count_by, map};
ghost use Rattle.std.specs.Io.KnownBytes.{Appends};
ghost use Rattle.clk_flow.specs.Faults.{HasCause};
ghost use Rattle.clk_flow.specs.Whole.{AppendsPrefix};
ghost use Rattle.ir_core.specs.Size.{size_of, total};
ghost use Rattle.ir_core.specs.Viewed.{line_of};
ghost use Rattle.ir_text.specs.Writable.{Writable};
ghost use Rattle.settings.specs.Shown.{inline_shown};
ghost use Rattle.clifinl.specs.GenCommand.{calls_within, function_sites, sites_in, summary_of, summary_text};
ghost use Rattle.clifinl.specs.InlineCommand.{policy_of};
ghost use Rattle.clifinl.specs.Measured.{measured};
ghost use Rattle.clifinl.specs.Runs.{Wrote};

use crate::pieces::put_all;
use crate::status::Status;
use clk_flow::{Failed, Gate, Sink};
use inline_finish::Policy;
use ir_check::Checked;
use ir_core::{Func, InstData, Module};
use itoa::Buffer;
use settings::InlineSettings;
use std::alloc::{AllocError, Global};
use std::mem::forget;
use std::sync::Wait;
use std::sync::ledger::Ledger;
use std::thread::Threads;
use worker_driver::{Steps, pass_with};

/// What the pass does to a module, in numbers.
#[derive(Clone, Copy)]
pub(crate) struct Summary {
    /// How many functions the module has.
    pub functions: usize,
    /// How many of its instructions call a function of the module.
    pub sites: u128,
    /// How many sites are inlined.
    pub inlined: u128,
    /// The sizes of all functions together.
    pub size_before: u128,
    /// The sizes of all finished bodies together.
    pub size_after: u128,
    /// How many steps the pass takes.
    pub steps: u128,
}

/// Runs the pass over a module, and measures what it does. The counter rises by the steps of the summary.
pub(crate) fn measure<R: Threads + Wait + Sync, G: Gate, L: Ledger>(
    rt: &R,
    alloc: Global,
    checked: &Checked,
    options: &InlineSettings,
    gate: &G,
    steps: &mut Steps<L>,
) -> Result<Summary, AllocError>
    requires { Writable checked.now }
    ensures summary { IfOk result (λ s. measured s ≡ summary_of (policy_of (inline_shown options.now)) checked.now) }
    ensures steps { IfOk result (λ s. steps.new ≡ steps.old + s.steps) }
{
    inline_numbering::laws::same_is_renamed();
    inline_numbering::laws::renamed_keeps_size();
    inline_pass::laws::renumbered_finished_stay_writable();
    let module = checked.module();
    let policy = Policy {
        callee_size: options.callee_size,
        caller_size: options.caller_size,
    };
    let passed = pass_with(rt, alloc, checked, policy, options.workers, gate, steps)?;
    let summary = Summary {
        functions: module.len(),
        sites: count_sites(module),
        inlined: passed.inlined,
        size_before: total_size(module),
        size_after: total_size(passed.module.module()),
        steps: module.len() as u128 + passed.inlined,
    };
    forget(passed);
    Ok(summary)
}

/// The sizes of all functions together.
fn total_size(module: &Module) -> u128
    requires { Writable «module».now }
    ensures { result ≡ total size_of «module».now }
{
    let mut size = 0u128;
    for i in 0..module.len() {
        size += module.func(i).size() as u128;
    }
    size
}

/// How many instructions call a function of the module.
fn count_sites(module: &Module) -> u128
    requires { Writable «module».now }
    ensures { result ≡ sites_in «module».now }
{
    let mut sites = 0u128;
    for i in 0..module.len() {
        sites += count_func_sites(module, module.func(i)) as u128;
    }
    sites
}

/// How many instructions of a function call a function of the module.
fn count_func_sites(module: &Module, func: &Func) -> u64
    requires { size_of func.now.function ≤ 262144 }
    ensures { result ≡ function_sites «module».now func.now.function }
{
    let mut sites = 0u64;
    for block in func.blocks() {
        sites += count_line_sites(module, func, func.inst_slice(block)) as u64;
    }
    sites
}

/// How many of these instructions of a function call a function of the module.
fn count_line_sites(module: &Module, func: &Func, lines: &[InstData]) -> usize
    ensures { result ≡ count_by (calls_within «module».now func.now.function) (map line_of lines.now) }
{
    let mut sites = 0usize;
    for line in lines {
        if is_site(module, func, line) {
            sites += 1;
        }
    }
    sites
}

/// Whether an instruction calls a function of the module.
fn is_site(module: &Module, func: &Func, line: &InstData) -> bool
    ensures { result ≡ calls_within «module».now func.now.function (line_of line.now) }
{
    match line.inst.callee() {
        Some(callee) => match func.callees().get(callee.number() as usize) {
            Some(declared) => module.find(&declared.name).is_some(),
            None => false,
        },
        None => false,
    }
}

/// Writes the lines of a summary. It takes no memory.
pub(crate) fn write_summary<O: Sink>(summary: &Summary, out: &mut O) -> Status
    ensures wrote { Wrote (summary_text (measured summary.now)) (O.written out.old) (O.written out.new)
        (O.faults out.old) (O.faults out.new) result }
    ensures some { (result ≡ Status.Done) ⊎ (result ≡ Status.WriteFault) }
{
    match put_summary(summary, out) {
        Ok(()) => Status::Done,
        Err(_) => Status::WriteFault,
    }
}

/// Gives the sink the lines of a summary.
fn put_summary<K: Sink>(summary: &Summary, sink: &mut K) -> Result<(), Failed>
    ensures whole { OnOk result
        (Appends (K.written sink.old) (K.written sink.new) (summary_text (measured summary.now))) }
    ensures part { OnErr result
        (AppendsPrefix (K.written sink.old) (K.written sink.new) (summary_text (measured summary.now))) }
    ensures cause { HasCause (K.faults sink.old) (K.faults sink.new) result }
{
    let mut functions = Buffer::new();
    let mut sites = Buffer::new();
    let mut inlined = Buffer::new();
    let mut before = Buffer::new();
    let mut after = Buffer::new();
    let mut steps = Buffer::new();
    put_all(
        sink,
        &[
            b"functions ".as_slice(),
            functions.format(summary.functions).as_bytes(),
            b"\nsites ".as_slice(),
            sites.format(summary.sites).as_bytes(),
            b"\ninlined ".as_slice(),
            inlined.format(summary.inlined).as_bytes(),
            b"\nsize before ".as_slice(),
            before.format(summary.size_before).as_bytes(),
            b"\nsize after ".as_slice(),
            after.format(summary.size_after).as_bytes(),
            b"\nsteps ".as_slice(),
            steps.format(summary.steps).as_bytes(),
            b"\n".as_slice(),
        ],
    )
}
