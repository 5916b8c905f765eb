//! Events, and how a run is over.
ghost use Rattle.std.specs.Prelude.{ℕ, List, map};
ghost use Rattle.clk_num.specs.Views.{data_of, data_of_all};
ghost use Rattle.interp.specs.Outcome.{shown_of, event_of, end_of};
ghost use Rattle.ir_text.specs.TextTree.{Text, spelled, separated, in_parentheses};
ghost use Rattle.ir_text.specs.TextInstructions.{constant};
ghost use Rattle.text_output.specs.Output.{Start, Puts};
ghost use Rattle.program_run.specs.RunText.{shown_text, tags_text, event_text, events_text, end_text};

use crate::exceptions::put_exception;
use crate::lists::put_list;
use clif_print::{put_name, put_trap_code};
use clk_num::Bits;
use interp::{End, Event, Shown};
use text_output::{Output, put_number};

/// Puts values with commas between them.
fn put_values<O: Output>(out: &mut O, values: &[Bits])
    ensures { Puts O.holds out.old out.new (spelled (separated constant (data_of_all values.now))) }
{
    put_list(out, values);
}

/// Puts the arguments of a call.
fn put_arguments<O: Output>(out: &mut O, args: &[Bits])
    ensures { Puts O.holds out.old out.new (spelled (in_parentheses (separated constant (data_of_all args.now)))) }
{
    out.put(b"(");
    put_values(out, args);
    out.put(b")");
}

/// Puts what tags show, with commas between them.
fn put_shown<O: Output>(out: &mut O, shown: &[Shown])
    ensures { Puts O.holds out.old out.new (spelled (separated shown_text (map shown_of shown.now))) }
{
    put_list(out, shown);
}

/// Puts what tags show, where they show something.
fn put_tags<O: Output>(out: &mut O, shown: &[Shown])
    ensures { Puts O.holds out.old out.new (spelled (tags_text (map shown_of shown.now))) }
{
    if !shown.is_empty() {
        out.put(b" <");
        put_shown(out, shown);
        out.put(b">");
    }
}

/// Puts an event.
pub(crate) fn put_event<O: Output>(out: &mut O, event: &Event)
    ensures { Puts O.holds out.old out.new (spelled (event_text (event_of event.now))) }
{
    match event {
        Event::Host { name, args, shown } => {
            out.put(b"host ");
            put_name(out, name);
            put_arguments(out, args.as_slice());
            put_tags(out, shown.as_slice());
        }
        Event::Point { shown } => {
            out.put(b"point");
            put_tags(out, shown.as_slice());
        }
        Event::Caught { tag, p0, p1, rank } => {
            out.put(b"caught");
            put_exception(out, *tag, *p0, *p1);
            out.put(b" rank ");
            put_number(out, *rank);
        }
    }
}

/// Puts events, each on a line.
pub(crate) fn put_events<O: Output>(out: &mut O, events: &[Event])
    ensures { Puts O.holds out.old out.new (spelled (events_text (map event_of events.now))) }
{
    let mut rest = events;
    'events: while let Some((event, after)) = rest.split_first() {
        put_event(out, event);
        out.put(b"\n");
        rest = after;
    }
}

/// Puts how a run is over.
pub(crate) fn put_end<O: Output>(out: &mut O, end: &End)
    ensures { Puts O.holds out.old out.new (spelled (end_text (end_of end.now))) }
{
    match end {
        End::Going => out.put(b"going"),
        End::Returned(values) => {
            out.put(b"returned [");
            put_values(out, values.as_slice());
            out.put(b"]");
        }
        End::Trapped(code) => {
            out.put(b"trapped ");
            put_trap_code(out, *code);
        }
        End::Threw { tag, p0, p1 } => {
            out.put(b"threw");
            put_exception(out, *tag, *p0, *p1);
        }
        End::Unwritten => out.put(b"unwritten"),
        End::ScriptEnded => out.put(b"script ended"),
        End::BadReply => out.put(b"bad reply"),
    }
}
