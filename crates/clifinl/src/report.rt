//! The line on standard error after a refusal.
ghost use Rattle.std.specs.Prelude.{◌≡◌, ◌⊎◌, ◌++◌, OnOk, OnErr, codes, decimal};
ghost use Rattle.std.specs.Io.KnownBytes.{Appends};
ghost use Rattle.clk_flow.specs.Faults.{HasCause, Rose};
ghost use Rattle.clk_flow.specs.Whole.{AppendsPrefix};
ghost use Rattle.clifinl.specs.Lines.{bad_word_line, line_of, refusal_line};

use crate::pieces::put_all;
use crate::status::{Refusal, Status};
use clk_flow::{Failed, Sink, put};
use itoa::Buffer;

/// Writes a line that ends with a number.
fn put_numbered<K: Sink>(sink: &mut K, front: &[u8], number: u64) -> Result<(), Failed>
    ensures whole { OnOk result (Appends (K.written sink.old) (K.written sink.new)
        (front.now ++ decimal number ++ codes "\n")) }
    ensures part { OnErr result (AppendsPrefix (K.written sink.old) (K.written sink.new)
        (front.now ++ decimal number ++ codes "\n")) }
    ensures cause { HasCause (K.faults sink.old) (K.faults sink.new) result }
{
    let mut digits = Buffer::new();
    put_all(
        sink,
        &[front, digits.format(number).as_bytes(), b"\n".as_slice()],
    )
}

/// Writes why an input is refused.
fn put_refusal<K: Sink>(sink: &mut K, refusal: Refusal) -> Result<(), Failed>
    ensures whole { OnOk result (Appends (K.written sink.old) (K.written sink.new) (refusal_line refusal)) }
    ensures part { OnErr result (AppendsPrefix (K.written sink.old) (K.written sink.new) (refusal_line refusal)) }
    ensures cause { HasCause (K.faults sink.old) (K.faults sink.new) result }
{
    match refusal {
        Refusal::Text(kind, place) => {
            let mut line = Buffer::new();
            let mut column = Buffer::new();
            put_all(
                sink,
                &[
                    b"error ".as_slice(),
                    line.format(place.line).as_bytes(),
                    b":".as_slice(),
                    column.format(place.column).as_bytes(),
                    b" ".as_slice(),
                    kind.name().as_bytes(),
                    b"\n".as_slice(),
                ],
            )
        }
        Refusal::TooLong => put(sink, b"error TooLong\n"),
        Refusal::BadScript(count) => put_numbered(sink, b"error BadScript ", count),
        Refusal::NoEntry => put(sink, b"error NoEntry\n"),
        Refusal::BadArgs => put(sink, b"error BadArgs\n"),
        Refusal::BadDirective(line) => {
            put_numbered(sink, b"error BadDirective ", u64::from(line))
        }
    }
}

/// Writes the line of a run that ended so, and nothing where it has none.
fn report<K: Sink>(sink: &mut K, status: Status) -> Result<(), Failed>
    ensures whole { OnOk result (Appends (K.written sink.old) (K.written sink.new) (line_of status)) }
    ensures part { OnErr result (AppendsPrefix (K.written sink.old) (K.written sink.new) (line_of status)) }
    ensures cause { HasCause (K.faults sink.old) (K.faults sink.new) result }
{
    match status {
        Status::Done | Status::Usage | Status::ChecksFailed => put(sink, b""),
        Status::Refused(refusal) => put_refusal(sink, refusal),
        Status::ReadFault => put(sink, b"error ReadFault\n"),
        Status::WriteFault => put(sink, b"error WriteFault\n"),
        Status::NoMemory => put(sink, b"error NoMemory\n"),
    }
}

/// Tells that the word of this number is not UTF-8. It takes no memory.
pub(crate) fn tell_bad_word<K: Sink>(sink: &mut K, number: u64)
    ensures told { AppendsPrefix (K.written sink.old) (K.written sink.new) (bad_word_line number) }
    ensures told_whole { (Rose (K.faults sink.old) (K.faults sink.new) → ⊥)
        → Appends (K.written sink.old) (K.written sink.new) (bad_word_line number) }
{
    let _told = put_numbered(sink, b"error: invalid UTF-8 was detected in word ", number);
}

/// Tells how a run ended: nothing where all was written, else a line. It takes no memory, and a fault of the sink
/// changes nothing else.
pub(crate) fn tell<K: Sink>(sink: &mut K, status: Status)
    ensures silent { (status ≡ Status.Done) ⊎ (status ≡ Status.ChecksFailed) → sink.new ≡ sink.old }
    ensures told { AppendsPrefix (K.written sink.old) (K.written sink.new) (line_of status) }
    ensures told_whole { (Rose (K.faults sink.old) (K.faults sink.new) → ⊥)
        → Appends (K.written sink.old) (K.written sink.new) (line_of status) }
{
    match status {
        Status::Done | Status::ChecksFailed => {}
        refusal => {
            let _told = report(sink, refusal);
        }
    }
}
