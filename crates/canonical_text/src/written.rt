//! A canonical text in pieces.
ghost use Rattle.std.specs.Prelude.{◌≡◌, OnErr, OnOk, drop, flat_map};
ghost use Rattle.std.specs.Io.KnownBytes.{Appends};
ghost use Rattle.clk_flow.specs.Faults.{HasCause};
ghost use Rattle.clk_flow.specs.Whole.{AppendsPrefix};
ghost use Rattle.text_output.specs.Output.{Start, Puts};

use clk_flow::{Failed, Sink};
use ir_core::Heads;
use std::marker::Model;
use text_output::{Output, SinkOutput};

/// The canonical text of a module, in pieces. Contracts see its bytes.
#[derive(Drop)]
pub struct CanonicalText {
    /// Each function stands behind an empty line, the first one too: its line feed is not of the text.
    texts: Vec<Vec<u8>>,
    /// The heads of its functions, if there are any left. They go with the text: to let many go takes time, which need
    /// not be spent where the program ends.
    heads: Option<Heads>,
}

impl Model for CanonicalText {
    ghost use Rattle.std.specs.Prelude.{ℕ, List, drop, flat_map};

    ghost Value = { List ℕ };

    ghost view = { λ written. drop 1 (flat_map (λ text. text.items) written.texts.items) };
}

impl CanonicalText {
    /// The text whose further functions these texts are, one behind the other, and the heads that are to go with it.
    pub(crate) fn of_texts(texts: Vec<Vec<u8>>, heads: Option<Heads>) -> CanonicalText
        ensures { result ≡ drop 1 (flat_map (λ text. text.items) texts.items) }
    {
        CanonicalText { texts, heads }
    }

    /// Appends the text, piece by piece. It takes no memory. `Failed` comes only where the sink's count of faults rose;
    /// a beginning of the text was appended then.
    pub fn write<K: Sink>(&self, sink: &mut K) -> Result<(), Failed>
        ensures whole { OnOk result (Appends (K.written sink.old) (K.written sink.new) self.now) }
        ensures part { OnErr result (AppendsPrefix (K.written sink.old) (K.written sink.new) self.now) }
        ensures cause { HasCause (K.faults sink.old) (K.faults sink.new) result }
    {
        let mut out = SinkOutput::new(sink);
        put_but_first(&mut out, self.texts.as_slice());
        out.finish()
    }
}

/// Puts texts, one behind the other, but for their first byte.
fn put_but_first<O: Output>(out: &mut O, texts: &[Vec<u8>])
    ensures { Puts O.holds out.old out.new (drop 1 (flat_map (λ text. text.items) texts.now)) }
{
    let mut skip = 1;
    let mut rest = texts;
    'texts: while let Some((text, after)) = rest.split_first() {
        let bytes = text.as_slice();
        let from = skip.min(bytes.len());
        out.put(&bytes[from..]);
        skip -= from;
        rest = after;
    }
}
