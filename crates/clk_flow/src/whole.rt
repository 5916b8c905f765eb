//! Reading to the end, and writing a whole piece.
ghost use Rattle.std.specs.Prelude.{◌≡◌, ◌+◌, ◌<◌, ◌≤◌, ℕ, List, IfOk, IfErr, IfSome, OnErr, OnOk, length, vec_len};
ghost use Rattle.std.specs.Io.KnownBytes.{Appends, Consumes, IsAtEnd};
ghost use Rattle.clk_flow.specs.Faults.{Rose, HasCause};
ghost use Rattle.clk_flow.specs.Whole.{ConsumesAtMost, AppendsPrefix};
ghost use Rattle.clk_flow.specs.declared.whole.ReadErr.TheVariants as why;

use crate::traits::{Failed, Sink, Source};
use std::alloc::Global;
use std::error::Error;
use std::fmt;

/// Why a source was not read whole.
#[derive(Clone, Copy, PartialEq, Eq, Debug)]
pub enum ReadErr {
    /// The source failed.
    Failed,
    /// The source has more bytes than the limit.
    TooLong,
    /// There was no memory.
    NoMemory,
}

impl fmt::Display for ReadErr {
    fn fmt<W: fmt::Write>(&self, f: &mut fmt::Formatter<W>) -> fmt::Result {
        match self {
            ReadErr::Failed => write!(f, "a read failed"),
            ReadErr::TooLong => write!(f, "there are more bytes than the limit"),
            ReadErr::NoMemory => write!(f, "out of memory"),
        }
    }
}

impl Error for ReadErr {}

/// The most bytes that are asked for at once.
const CHUNK: usize = 65_536;

/// All bytes of the source up to its end, where they are no more than `limit`. After a refusal the bytes that were
/// taken are gone; they are at most `limit + 1`.
pub fn read_whole<S: Source>(
    alloc: Global,
    source: &mut S,
    limit: usize,
) -> Result<Vec<u8>, ReadErr>
    ensures whole { IfOk result (λ v. Consumes (S.left source.old) (S.left source.new) v.items
        × IsAtEnd (S.left source.new) × (vec_len v ≤ limit)) }
    ensures failed { IfErr result (λ e. e ≡ why.Failed → Rose (S.faults source.old) (S.faults source.new)) }
    ensures long { IfErr result (λ e. e ≡ why.TooLong → (bytes : List ℕ)
        × Consumes (S.left source.old) (S.left source.new) bytes × (length bytes ≡ limit + 1)) }
    // Where the source tells what it has left: that is too long where it is longer than the limit, and nowhere else.
    ensures told_whole { IfOk result (λ v. IfSome (S.left source.old) (λ bytes. v.items ≡ bytes)) }
    ensures told_long { IfErr result
        (λ e. e ≡ why.TooLong → IfSome (S.left source.old) (λ bytes. limit < length bytes)) }
    ensures gone { OnErr result (ConsumesAtMost (S.left source.old) (S.left source.new) (limit + 1)) }
    ensures later { S.faults source.old ≤ S.faults source.new }
{
    let Ok(mut buffer) = vec![in alloc; 0u8; CHUNK] else {
        return Err(ReadErr::NoMemory);
    };
    let chunk = buffer.as_mut_slice();
    let mut whole = Vec::new(alloc);
    'turns: while whole.len() <= limit {
        let room = (limit - whole.len()).min(CHUNK - 1) + 1;
        let Ok(count) = source.take(&mut chunk[..room]) else {
            return Err(ReadErr::Failed);
        };
        if count == 0 {
            return Ok(whole);
        }
        if whole.extend_from_slice(&chunk[..count]).is_err() {
            return Err(ReadErr::NoMemory);
        }
    }
    Err(ReadErr::TooLong)
}

/// Appends the whole piece. On `Failed` a beginning of the piece was appended.
pub fn put<K: Sink>(sink: &mut K, piece: &[u8]) -> Result<(), Failed>
    ensures whole { OnOk result (Appends (K.written sink.old) (K.written sink.new) piece.now) }
    ensures part { OnErr result (AppendsPrefix (K.written sink.old) (K.written sink.new) piece.now) }
    ensures cause { HasCause (K.faults sink.old) (K.faults sink.new) result }
{
    let mut rest = piece;
    while !rest.is_empty() {
        let count = sink.give(rest)?;
        rest = &rest[count..];
    }
    Ok(())
}
