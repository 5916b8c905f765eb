//! The text of a run, and its lines.
ghost use Rattle.std.specs.Prelude.{◌≡◌, ℕ, List, IfOk, OnErr, OnOk};
ghost use Rattle.std.specs.Io.KnownBytes.{Appends};
ghost use Rattle.clk_flow.specs.Faults.{HasCause};
ghost use Rattle.clk_flow.specs.Whole.{AppendsPrefix};
ghost use Rattle.interp.specs.Outcome.{event_of, end_of, outcome_of};
ghost use Rattle.ir_text.specs.TextTree.{Text, spelled};
ghost use Rattle.text_output.specs.Output.{Start, Puts};
ghost use Rattle.program_run.specs.RunText as definition;

use crate::events::{put_end, put_event, put_events};
use crate::memory::put_memory;
use clk_flow::{Failed, Sink};
use interp::{End, Event, Outcome};
use std::alloc::{AllocError, Global};
use text_output::{MemoryOutput, Output, SinkOutput};

/// Puts the text of a run.
fn put_run<O: Output>(out: &mut O, outcome: &Outcome)
    ensures { Puts O.holds out.old out.new (spelled (definition.run_text (outcome_of outcome.now))) }
{
    put_events(out, outcome.events.as_slice());
    put_end(out, &outcome.end);
    out.put(b"\n");
    put_memory(out, outcome.memory.bytes());
}

/// Appends the text of a run: a line for each event, one for how the run is over, and those of its memory. It takes no
/// memory, and gives the sink a few kilobytes at a time. `Failed` comes only where the sink's count of faults rose; a
/// beginning of the text was appended then.
pub fn print_run<K: Sink>(outcome: &Outcome, sink: &mut K) -> Result<(), Failed>
    ensures whole { OnOk result
        (Appends (K.written sink.old) (K.written sink.new)
        (spelled (definition.run_text (outcome_of outcome.now)))) }
    ensures part { OnErr result
        (AppendsPrefix (K.written sink.old) (K.written sink.new)
        (spelled (definition.run_text (outcome_of outcome.now)))) }
    ensures cause { HasCause (K.faults sink.old) (K.faults sink.new) result }
{
    let mut out = SinkOutput::new(sink);
    put_run(&mut out, outcome);
    out.finish()
}

/// The text of a run. Only `AllocError` refuses.
pub fn run_text(alloc: Global, outcome: &Outcome) -> Result<Vec<u8>, AllocError>
    ensures { IfOk result (λ text. text.items ≡ spelled (definition.run_text (outcome_of outcome.now))) }
{
    let mut out = MemoryOutput::new(alloc);
    put_run(&mut out, outcome);
    out.finish()
}

/// The line of an event, without a line end. Only `AllocError` refuses.
pub fn event_line(alloc: Global, event: &Event) -> Result<Vec<u8>, AllocError>
    ensures { IfOk result (λ line. line.items ≡ spelled (definition.event_text (event_of event.now))) }
{
    let mut out = MemoryOutput::new(alloc);
    put_event(&mut out, event);
    out.finish()
}

/// The line of how a run is over, without a line end. Only `AllocError` refuses.
pub fn end_line(alloc: Global, end: &End) -> Result<Vec<u8>, AllocError>
    ensures { IfOk result (λ line. line.items ≡ spelled (definition.end_text (end_of end.now))) }
{
    let mut out = MemoryOutput::new(alloc);
    put_end(&mut out, end);
    out.finish()
}
