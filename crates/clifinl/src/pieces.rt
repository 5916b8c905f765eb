//! Texts that are written piece by piece.
ghost use Rattle.std.specs.Prelude.{flat_map, OnOk, OnErr};
ghost use Rattle.std.specs.Io.KnownBytes.{Appends};
ghost use Rattle.clk_flow.specs.Faults.{HasCause};
ghost use Rattle.clk_flow.specs.Whole.{AppendsPrefix};

use clk_flow::{Failed, Sink, put};

/// Gives the sink some pieces one behind the other, up to the first that it does not take. It takes no memory.
pub(crate) fn put_all<K: Sink>(sink: &mut K, pieces: &[&[u8]]) -> Result<(), Failed>
    ensures whole { OnOk result
        (Appends (K.written sink.old) (K.written sink.new) (flat_map (λ piece. piece.now) pieces.now)) }
    ensures part { OnErr result
        (AppendsPrefix (K.written sink.old) (K.written sink.new) (flat_map (λ piece. piece.now) pieces.now)) }
    ensures cause { HasCause (K.faults sink.old) (K.faults sink.new) result }
{
    for piece in pieces {
        put(sink, piece)?;
    }
    Ok(())
}
