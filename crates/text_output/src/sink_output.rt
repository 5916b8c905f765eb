//! Text into a sink, in large pieces.
ghost use Rattle.std.specs.Prelude.{◌≡◌, ◌≤◌, ◌+◌, ℕ, length, List, []};
ghost use Rattle.text_output.specs.Output.{Start, HasText, Takes, Ends};

use crate::output::Output;
use crate::waiting::{MOST_DIGITS, Waiting};
use clk_flow::{Failed, Sink};

/// A sink, and bytes that wait until there are enough. After a failure nothing more is given to the sink.
#[derive(Drop)]
pub struct SinkOutput<'a, K> {
    sink: &'a mut K,
    waiting: Waiting,
    failed: bool,
}

impl<'a, K: Sink> SinkOutput<'a, K> {
    /// An output into this sink, which took nothing.
    pub fn new(sink: &'a mut K) -> SinkOutput<'a, K>
        ensures same { result.sink.ghost_name ≡ sink.entry.ghost_name }
        ensures text { HasText
            (record { name = sink.entry.ghost_name; written = K.written sink.old; faults = K.faults sink.old })
            (record {
              name = result.sink.ghost_name;
              written = K.written result.sink.now;
              faults = K.faults result.sink.now;
              waiting = result.waiting;
              failed = result.failed;
            }) [] }
    {
        SinkOutput {
            sink,
            waiting: Waiting::new(),
            failed: false,
        }
    }

    /// Gives the bytes to the sink, where nothing waits.
    fn give(&mut self, bytes: &[u8])
        requires { self.old.waiting ≡ [] }
        ensures same { self.new.sink.ghost_name ≡ self.old.sink.ghost_name }
        ensures empty { self.new.waiting ≡ [] }
        ensures takes { Takes (record {
          name = self.old.sink.ghost_name;
          written = K.written self.old.sink.now;
          faults = K.faults self.old.sink.now;
          waiting = self.old.waiting;
          failed = self.old.failed;
        })
            (record {
              name = self.new.sink.ghost_name;
              written = K.written self.new.sink.now;
              faults = K.faults self.new.sink.now;
              waiting = self.new.waiting;
              failed = self.new.failed;
            }) bytes.now }
    {
        if self.failed {
            return;
        }
        self.failed = clk_flow::put(self.sink, bytes).is_err();
    }

    /// Gives what waits to the sink.
    fn flush(&mut self)
        ensures same { self.new.sink.ghost_name ≡ self.old.sink.ghost_name }
        ensures empty { self.new.waiting ≡ [] }
        ensures takes { Takes (record {
          name = self.old.sink.ghost_name;
          written = K.written self.old.sink.now;
          faults = K.faults self.old.sink.now;
          waiting = self.old.waiting;
          failed = self.old.failed;
        })
            (record {
              name = self.new.sink.ghost_name;
              written = K.written self.new.sink.now;
              faults = K.faults self.new.sink.now;
              waiting = self.new.waiting;
              failed = self.new.failed;
            }) [] }
    {
        if self.failed {
            self.waiting.clear();
            return;
        }
        self.failed = clk_flow::put(self.sink, self.waiting.text()).is_err();
        self.waiting.clear();
    }

    /// Takes bytes that have no room behind those that wait.
    #[inline(never)]
    fn put_behind(&mut self, bytes: &[u8])
        ensures same { self.new.sink.ghost_name ≡ self.old.sink.ghost_name }
        ensures takes { Takes (record {
          name = self.old.sink.ghost_name;
          written = K.written self.old.sink.now;
          faults = K.faults self.old.sink.now;
          waiting = self.old.waiting;
          failed = self.old.failed;
        })
            (record {
              name = self.new.sink.ghost_name;
              written = K.written self.new.sink.now;
              faults = K.faults self.new.sink.now;
              waiting = self.new.waiting;
              failed = self.new.failed;
            }) bytes.now }
    {
        self.flush();
        if self.waiting.has_room(bytes.len()) {
            self.waiting.append(bytes);
        } else {
            self.give(bytes);
        }
    }

    /// Gives what waits to the sink, and says whether all was given.
    pub fn finish(&mut self) -> Result<(), Failed>
        ensures same { self.new.sink.ghost_name ≡ self.old.sink.ghost_name }
        ensures ends { (start : Start) (text : List ℕ)
            → HasText start
            (record {
              name = self.old.sink.ghost_name;
              written = K.written self.old.sink.now;
              faults = K.faults self.old.sink.now;
              waiting = self.old.waiting;
              failed = self.old.failed;
            }) text
            → Ends start (K.written self.new.sink.now) (K.faults self.new.sink.now) result text }
    {
        self.flush();
        if self.failed { Err(Failed) } else { Ok(()) }
    }
}

impl<'a, K: Sink> Output for SinkOutput<'a, K> {
    ghost holds = { λ start w text. HasText start
        (record {
          name = w.sink.ghost_name;
          written = K.written w.sink.now;
          faults = K.faults w.sink.now;
          waiting = w.waiting;
          failed = w.failed;
        }) text };

    #[inline(always)]
    fn put(&mut self, bytes: &[u8]) {
        if self.waiting.has_room(bytes.len()) {
            self.waiting.append(bytes);
        } else {
            self.put_behind(bytes);
        }
    }

    fn put_digits(&mut self, number: u64) {
        if self.waiting.has_room(MOST_DIGITS) {
            self.waiting.append_digits(number);
        } else {
            self.put_behind(itoa::Buffer::new().format(number).as_bytes());
        }
    }
}
