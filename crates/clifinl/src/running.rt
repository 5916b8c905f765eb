//! The command `run`.
ghost use Rattle.std.specs.Prelude.{◌≡◌, ◌⊎◌, ℕ, IfErr, IfOk, string_bytes};
ghost use Rattle.interp.specs.Outcome.{outcome_of};
ghost use Rattle.ir_text.specs.TextTree.{spelled};
ghost use Rattle.program_run.specs.EntryName.{IsSpelledEntry};
ghost use Rattle.program_run.specs.RunText.{run_text};
ghost use Rattle.settings.specs.Shown.{run_shown};
ghost use Rattle.clifinl.specs.RunCommand.{EntryRunEnds, HasOutcome, IsEntryRefusal, IsFunctionRun, IsListRefusal};
ghost use Rattle.clifinl.specs.RunCommand.{IsScriptRefusal, ReadsNumbers, ReadsScript};
ghost use Rattle.clifinl.specs.Runs.{Wrote, outside};

use crate::commands::WORKERS;
use crate::reading::read_module;
use crate::status::{Refusal, Status};
use byte_store::Memory;
use clk_flow::{Sink, Source};
use host_script::Script;
use ir_check::Checked;
use ir_core::FuncName;
use program_run::{Outcome, RunErr, find_entry, print_run};
use script_text::{ScriptErr, number_list, script};
use settings::RunSettings;
use std::alloc::Global;
use std::mem::forget;
use std::sync::Wait;
use std::thread::Threads;

/// Reads the script, then a module, and where it is accepted runs a function of it and writes the text of the run.
pub(crate) fn run<R: Threads + Wait + Sync, I: Source, O: Sink>(
    rt: &R,
    alloc: Global,
    asked: &RunSettings,
    input: &mut I,
    out: &mut O,
) -> Status
    ensures run { IsFunctionRun (run_shown asked.now)
        (outside (I.left input.old) (I.faults input.old) (O.written out.old) (O.faults out.old))
        (outside (I.left input.new) (I.faults input.new) (O.written out.new) (O.faults out.new)) result }
    ensures unread { (count : ℕ) → result ≡ Status.Refused (Refusal.BadScript count) → input.new ≡ input.old }
    ensures nothing { (out.new ≡ out.old) ⊎ ((result ≡ Status.Done) ⊎ (result ≡ Status.WriteFault)) }
{
    match read_script(alloc, asked.script.as_str()) {
        Ok(script) => run_with(rt, alloc, asked, &script, input, out),
        Err(status) => status,
    }
}

/// The script of this text.
///
/// # Errors
///
/// The status of a run that stops here.
fn read_script(alloc: Global, text: &str) -> Result<Script, Status>
    ensures read { IfOk result (λ s. ReadsScript text.now s) }
    ensures refused { IfErr result (IsScriptRefusal text.now) }
{
    match script(alloc, text) {
        Ok(script) => Ok(script),
        Err(ScriptErr::BadScript(spot)) => {
            Err(Status::Refused(Refusal::BadScript(spot as u64 + 1)))
        }
        Err(ScriptErr::NoMemory) => Err(Status::NoMemory),
    }
}

/// Reads a module, and where it is accepted runs a function of it with the script and writes the text of the run.
fn run_with<R: Threads + Wait + Sync, I: Source, O: Sink>(
    rt: &R,
    alloc: Global,
    asked: &RunSettings,
    script: &Script,
    input: &mut I,
    out: &mut O,
) -> Status
    requires { ReadsScript (string_bytes asked.now.script) script.now }
    ensures run { IsFunctionRun (run_shown asked.now)
        (outside (I.left input.old) (I.faults input.old) (O.written out.old) (O.faults out.old))
        (outside (I.left input.new) (I.faults input.new) (O.written out.new) (O.faults out.new)) result }
    ensures nothing { (out.new ≡ out.old) ⊎ ((result ≡ Status.Done) ⊎ (result ≡ Status.WriteFault)) }
{
    match read_module(rt, alloc, WORKERS, input) {
        Ok(checked) => {
            let status = write_run(alloc, &checked, asked, script, out);
            // The program ends here: its memory goes with it, and not part by part before.
            forget(checked);
            status
        }
        Err(status) => status,
    }
}

/// Runs a function of an accepted module with the script and writes the text of the run.
fn write_run<O: Sink>(
    alloc: Global,
    checked: &Checked,
    asked: &RunSettings,
    script: &Script,
    out: &mut O,
) -> Status
    ensures wrote { EntryRunEnds (run_shown asked.now) script.now checked.now (O.written out.old) (O.written out.new)
        (O.faults out.old) (O.faults out.new) result }
    ensures nothing { (out.new ≡ out.old) ⊎ ((result ≡ Status.Done) ⊎ (result ≡ Status.WriteFault)) }
{
    match run_entry(alloc, checked, asked, script) {
        Ok(outcome) => {
            let status = write_outcome(&outcome, out);
            forget(outcome);
            status
        }
        Err(status) => status,
    }
}

/// Writes the text of a run. It takes no memory.
fn write_outcome<O: Sink>(outcome: &Outcome, out: &mut O) -> Status
    ensures wrote { Wrote (spelled (run_text (outcome_of outcome.now))) (O.written out.old) (O.written out.new)
        (O.faults out.old) (O.faults out.new) result }
    ensures some { (result ≡ Status.Done) ⊎ (result ≡ Status.WriteFault) }
{
    match print_run(outcome, out) {
        Ok(()) => Status::Done,
        Err(_) => Status::WriteFault,
    }
}

/// The run of the function whose name is spelled as the settings have it.
///
/// # Errors
///
/// The status of a run that stops here: no function has the name, or the arguments are refused.
fn run_entry(
    alloc: Global,
    checked: &Checked,
    asked: &RunSettings,
    script: &Script,
) -> Result<Outcome, Status>
    ensures outcome { IfOk result (HasOutcome (run_shown asked.now) script.now checked.now) }
    ensures refused { IfErr result (IsEntryRefusal (run_shown asked.now) checked.now) }
{
    match find_entry(checked.module(), asked.entry.as_bytes()) {
        Some(name) => run_named(alloc, checked, name, asked, script),
        None => Err(Status::Refused(Refusal::NoEntry)),
    }
}

/// The run of the function of this name.
///
/// # Errors
///
/// The status of a run that stops here: the arguments are refused.
fn run_named(
    alloc: Global,
    checked: &Checked,
    name: &FuncName,
    asked: &RunSettings,
    script: &Script,
) -> Result<Outcome, Status>
    requires { IsSpelledEntry checked.now (string_bytes asked.now.entry) name.now }
    ensures outcome { IfOk result (HasOutcome (run_shown asked.now) script.now checked.now) }
    ensures refused { IfErr result (IsEntryRefusal (run_shown asked.now) checked.now) }
{
    let numbers = match read_numbers(alloc, asked.args.as_str()) {
        Ok(numbers) => numbers,
        Err(status) => return Err(status),
    };
    let Ok(zeros) = vec![in alloc; 0u8; asked.memory] else {
        return Err(Status::NoMemory);
    };
    let memory = Memory::new(zeros);
    match program_run::run(
        alloc,
        checked,
        name,
        numbers.as_slice(),
        script,
        memory,
        asked.steps,
    ) {
        Ok(outcome) => Ok(outcome),
        Err(RunErr::NoEntry) => Err(Status::Refused(Refusal::NoEntry)),
        Err(RunErr::BadArgs) => Err(Status::Refused(Refusal::BadArgs)),
        Err(RunErr::NoMemory) => Err(Status::NoMemory),
    }
}

/// The numbers of this text.
///
/// # Errors
///
/// The status of a run that stops here: the text is no list of numbers.
fn read_numbers(alloc: Global, text: &str) -> Result<Vec<i128>, Status>
    ensures read { IfOk result (λ v. ReadsNumbers text.now v.items) }
    ensures refused { IfErr result (IsListRefusal text.now) }
{
    match number_list(alloc, text) {
        Ok(numbers) => Ok(numbers),
        Err(ScriptErr::BadScript(_)) => Err(Status::Refused(Refusal::BadArgs)),
        Err(ScriptErr::NoMemory) => Err(Status::NoMemory),
    }
}
