//! The top call.
ghost use Rattle.std.specs.Prelude.{◌≡◌, ◌≢◌, ◌⊎◌, Some, None, map, string_bytes};
ghost use Rattle.std.specs.Io.KnownBytes.{Appends};
ghost use Rattle.clk_flow.specs.Faults.{Rose};
ghost use Rattle.clk_flow.specs.Whole.{AppendsPrefix};
ghost use Rattle.settings.specs.Meaning.{settings_of};
ghost use Rattle.settings.specs.Settings as asked;
ghost use Rattle.settings.specs.Shown.{shown};
ghost use Rattle.clifinl.specs.Asked.{IsRunOf, ReadsNothing};
ghost use Rattle.clifinl.specs.Lines.{line_of};
ghost use Rattle.clifinl.specs.Runs.{outside};

use crate::commands::{check, print};
use crate::generating::generated;
use crate::inlining::inline;
use crate::report::tell;
use crate::running::run;
use crate::status::Status;
use crate::testing::test;
use clk_flow::{Gate, Sink, Source, put};
use settings::{Settings, Stopped, read_settings};
use std::alloc::Global;
use std::sync::Wait;
use std::thread::Threads;

/// Carries out what the settings ask for.
fn carry_out<R: Threads + Wait + Sync, I: Source, O: Sink, G: Gate>(
    rt: &R,
    alloc: Global,
    settings: &Settings,
    input: &mut I,
    out: &mut O,
    gate: &G,
) -> Status
    ensures run { IsRunOf (shown settings.now)
        (outside (I.left input.old) (I.faults input.old) (O.written out.old) (O.faults out.old))
        (outside (I.left input.new) (I.faults input.new) (O.written out.new) (O.faults out.new)) result }
    ensures unread { ReadsNothing (shown settings.now) result → input.new ≡ input.old }
    ensures nothing { (out.new ≡ out.old)
        ⊎ ((result ≡ Status.Done) ⊎ ((result ≡ Status.ChecksFailed) ⊎ (result ≡ Status.WriteFault))) }
{
    match settings {
        Settings::Check => check(rt, alloc, input, out),
        Settings::Print => print(rt, alloc, input, out),
        Settings::Inline(options) => inline(rt, alloc, options, input, out, gate),
        Settings::Run(options) => run(rt, alloc, options, input, out),
        Settings::Gen(options) => generated(rt, alloc, options, out, gate),
        Settings::Test => test(alloc, input, out),
    }
}

/// All that the program does, by the words of its command line: `check` and `print` read a module from `input`, and
/// write to `out` how many functions it has, and its canonical text; `run` runs a function of it, and writes what the
/// run did; `inline` writes the canonical text of the module with its calls inlined, from callees to callers, as the
/// sizes of the settings allow, and tells the gate of each function that a worker begins; `gen` reads nothing, makes a
/// module, and writes its canonical text, or in numbers what inlining its calls does; `test` carries out the tests that
/// stand in the text from `input`, and writes the report of their checks. A refusal is told on `err` in one line.
pub fn command<R: Threads + Wait + Sync, I: Source, O: Sink, E: Sink, G: Gate>(
    rt: &R,
    alloc: Global,
    words: &[String],
    input: &mut I,
    out: &mut O,
    err: &mut E,
    gate: &G,
) -> Status
    // The words have no settings: nothing was read.
    ensures usage { result ≡ Status.Usage → settings_of (map string_bytes words.now) ≡ None }
    ensures no_usage { settings_of (map string_bytes words.now) ≡ None
        → ((result ≡ Status.Usage) ⊎ (result ≡ Status.NoMemory)) × (input.new ≡ input.old) }

    // Else this is a run of the command: each status has its cause, and where the source tells its bytes, they decide.
    ensures run { (s : asked.Settings) → settings_of (map string_bytes words.now) ≡ Some s → IsRunOf s
        (outside (I.left input.old) (I.faults input.old) (O.written out.old) (O.faults out.old))
        (outside (I.left input.new) (I.faults input.new) (O.written out.new) (O.faults out.new)) result }
    ensures unread { (s : asked.Settings) → settings_of (map string_bytes words.now) ≡ Some s → ReadsNothing s result
        → input.new ≡ input.old }
    ensures nothing { (out.new ≡ out.old)
        ⊎ ((result ≡ Status.Done) ⊎ ((result ≡ Status.ChecksFailed) ⊎ (result ≡ Status.WriteFault))) }

    // What was told: nothing where all was written, else the line of the status. A fault of `err` changes nothing else.
    ensures silent { (result ≡ Status.Done) ⊎ (result ≡ Status.ChecksFailed) → err.new ≡ err.old }
    ensures told { result ≢ Status.Usage → AppendsPrefix (E.written err.old) (E.written err.new) (line_of result) }
    ensures told_whole { result ≢ Status.Usage → (Rose (E.faults err.old) (E.faults err.new) → ⊥)
        → Appends (E.written err.old) (E.written err.new) (line_of result) }
{
    let settings = match read_settings(alloc, words) {
        Ok(settings) => settings,
        Err(Stopped::Usage(text)) => {
            let _told = put(err, text.as_bytes());
            return Status::Usage;
        }
        Err(Stopped::NoMemory) => {
            tell(err, Status::NoMemory);
            return Status::NoMemory;
        }
    };
    let status = carry_out(rt, alloc, &settings, input, out, gate);
    tell(err, status);
    status
}
