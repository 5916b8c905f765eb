//! What no clause says by a run: a source that fails in mid-stream.

use crate::{Status, command};
use clk_flow::{MemSink, MemSource, NoGate};
use std::alloc::{AllocError, Global};
use std::sync::Wait;
use std::thread::Threads;

/// An accepted module of 37 bytes.
const TEXT: &[u8] = b"function %f() {\nblock0:\n    return\n}\n";

/// How many bytes a call of the source gives at most.
const MOST: usize = 7;

/// How many calls read the text to its end: one for each 7 bytes of it, and one that gives none.
const CALLS: u64 = 7;

/// The status of `check`, what it wrote and what it told, where the source fails at this call.
fn checked<R: Threads + Wait + Sync>(
    rt: &R,
    alloc: Global,
    failing: u64,
) -> Result<(Status, MemSink, MemSink), AllocError> {
    let mut words = Vec::new(alloc);
    for word in ["clifinl", "check"] {
        words.push(String::from_str(alloc, word)?)?;
    }
    let fails = vec![in alloc; failing; 1]?;
    let mut input = MemSource::new(Vec::from_slice(alloc, TEXT)?, fails, MOST);
    let mut out = MemSink::new(alloc, Vec::new(alloc), 100)?;
    let mut err = MemSink::new(alloc, Vec::new(alloc), 100)?;
    let words = words.as_slice();
    let status = command(rt, alloc, words, &mut input, &mut out, &mut err, &NoGate);
    Ok((status, out, err))
}

#[test]
fn a_source_that_fails_at_any_call_gives_a_read_fault(rt: HostRuntime) -> Result<(), AllocError> {
    let alloc = rt.alloc();
    for failing in 0..CALLS {
        let (status, out, err) = checked(&rt, alloc, failing)?;
        assert!(rt; status == Status::ReadFault);
        assert!(rt; out.bytes().is_empty());
        assert!(rt; err.bytes() == b"error ReadFault\n".as_slice());
    }
    let (status, out, err) = checked(&rt, alloc, CALLS)?;
    assert!(rt; status == Status::Done);
    assert!(rt; out.bytes() == b"ok 1\n".as_slice());
    assert!(rt; err.bytes().is_empty());
    Ok(())
}
