//! What the outside promises.
ghost use Rattle.std.specs.Prelude.{ℕ, List, ◌<◌, length, IfOk};
ghost use Rattle.std.specs.declared.option.Option.{Option};
ghost use Rattle.std.specs.Io.{ReadsAtMost, WritesAtMost};
ghost use Rattle.std.specs.Io.KnownBytes.{ReadConsumes, WriteAppends};
ghost use Rattle.clk_flow.specs.Faults.{HasCause};

use std::error::Error;
use std::fmt;

/// A read or a write that did not happen. The count of faults of its source or sink says so too.
#[derive(Clone, Copy, PartialEq, Eq, Debug)]
pub struct Failed;

impl fmt::Display for Failed {
    fn fmt<W: fmt::Write>(&self, f: &mut fmt::Formatter<W>) -> fmt::Result {
        write!(f, "a read or a write failed")
    }
}

impl Error for Failed {}

/// Bytes to be taken, from the front on.
pub trait Source {
    /// The bytes that are not yet taken, where the source tells them.
    ghost left: { Self → Option (List ℕ) };

    /// How many faults there were.
    ghost faults: { Self → ℕ };

    /// Takes the next bytes and puts them at the front of `into`: how many there are. `Ok(0)` for a non-empty `into` is
    /// the end. `Failed` comes only where the count of faults rose in this call, and nothing was taken then.
    fn take(&mut self, into: &mut [u8]) -> Result<usize, Failed>
        ensures bound { ReadsAtMost result into.new }
        ensures bytes { ReadConsumes (left self.old) (left self.new) result into.new }
        ensures cause { HasCause (faults self.old) (faults self.new) result };
}

/// Takes bytes, which it keeps in order.
pub trait Sink {
    /// The bytes that were written, where the sink tells them.
    ghost written: { Self → Option (List ℕ) };

    /// How many faults there were.
    ghost faults: { Self → ℕ };

    /// Appends the first bytes of `piece`: how many they are, at least 1 for a non-empty piece. `Failed` comes only
    /// where the count of faults rose in this call, and nothing was appended then.
    fn give(&mut self, piece: &[u8]) -> Result<usize, Failed>
        ensures bound { WritesAtMost result piece.now }
        ensures some { IfOk result (λ count. 0 < length piece.now → 0 < count) }
        ensures bytes { WriteAppends (written self.old) (written self.new) result piece.now }
        ensures cause { HasCause (faults self.old) (faults self.new) result };
}

/// Where a worker announces a ticket that it drew, before it works on it. The answer of the work does not rest on it.
pub trait Gate: Sync {
    /// Worker number `worker` starts ticket number `ticket`.
    fn started(&self, worker: usize, ticket: usize);
}

/// The gate that does nothing.
#[derive(Clone, Copy, PartialEq, Eq)]
pub struct NoGate;

impl Gate for NoGate {
    fn started(&self, _worker: usize, _ticket: usize) {}
}
