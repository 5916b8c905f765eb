//! Exceptions: their tags and payloads.
ghost use Rattle.std.specs.Prelude.{ℕ, List};
ghost use Rattle.ir_semantics.specs.Values.{i64};
ghost use Rattle.ir_text.specs.TextTree.{Text, spelled, comma, ◌▹◌};
ghost use Rattle.ir_text.specs.TextInstructions.{constant};
ghost use Rattle.text_output.specs.Output.{Start, Puts};
ghost use Rattle.program_run.specs.RunText.{exception_text};

use clif_print::put_constant;
use clk_num::{Bits, Width};
use text_output::{Output, put_numbered};

/// Puts a payload of an exception, as signed.
fn put_payload<O: Output>(out: &mut O, payload: u64)
    ensures { Puts O.holds out.old out.new (spelled (constant (i64 payload))) }
{
    let value = Bits::new(Width::W64, u128::from(payload));
    put_constant(out, &value);
}

/// Puts the payloads of an exception.
fn put_payloads<O: Output>(out: &mut O, p0: u64, p1: u64)
    ensures { Puts O.holds out.old out.new (spelled (constant (i64 p0) ▹ comma ▹ constant (i64 p1))) }
{
    put_payload(out, p0);
    out.put(b", ");
    put_payload(out, p1);
}

/// Puts the tag and the payloads of an exception.
pub(crate) fn put_exception<O: Output>(out: &mut O, tag: u32, p0: u64, p1: u64)
    ensures { Puts O.holds out.old out.new (spelled (exception_text tag p0 p1)) }
{
    put_numbered(out, b" tag", tag);
    out.put(b" (");
    put_payloads(out, p0, p1);
    out.put(b")");
}
