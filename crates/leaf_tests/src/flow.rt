//! What no clause says: that calls succeed where memory is left, and one fault in mid-stream.
use clk_flow::{
    Failed, Gate, MemSink, MemSource, NoGate, NullSink, ReadErr, Source, StdSink, StdSource,
    SureSource, put, read_whole,
};
use std::alloc::{AllocError, Global};

const DIGITS: &[u8] = b"0123456789";

/// How many bytes the source gives until it ends.
fn count_to_end<S: Source>(alloc: Global, source: &mut S, limit: usize) -> Result<usize, ReadErr> {
    Ok(read_whole(alloc, source, limit)?.len())
}

#[test]
fn reads_to_the_end_or_one_past_the_limit(rt: HostRuntime) -> Result<(), AllocError> {
    let alloc = rt.alloc();
    for (limit, answer) in [
        (10, Ok(10)),
        (11, Ok(10)),
        (9, Err(ReadErr::TooLong)),
        (0, Err(ReadErr::TooLong)),
    ] {
        let mut source = MemSource::new(Vec::from_slice(alloc, DIGITS)?, Vec::new(alloc), 3);
        let count = count_to_end(alloc, &mut source, limit);
        assert!(rt; count == answer, "at {limit}");
    }
    Ok(())
}

#[test]
fn reads_on_behind_a_limit(rt: HostRuntime) -> Result<(), AllocError> {
    let alloc = rt.alloc();
    let mut source = SureSource::new(Vec::from_slice(alloc, DIGITS)?);
    assert!(rt; count_to_end(alloc, &mut source, 4) == Err(ReadErr::TooLong));
    // Five bytes are gone.
    assert!(rt; count_to_end(alloc, &mut source, 10) == Ok(5));
    Ok(())
}

#[test]
fn one_fault_in_mid_stream(rt: HostRuntime) -> Result<(), AllocError> {
    let alloc = rt.alloc();
    let mut source = MemSource::new(Vec::from_slice(alloc, DIGITS)?, vec![in alloc; 1]?, 4);
    assert!(rt; count_to_end(alloc, &mut source, 10) == Err(ReadErr::Failed));
    assert!(rt; count_to_end(alloc, &mut source, 10) == Ok(6));
    Ok(())
}

/// A sink with room for five bytes, whose second call fails.
fn sink_with_fault(alloc: Global) -> Result<MemSink, AllocError> {
    MemSink::new(alloc, vec![in alloc; 1]?, 5)
}

/// What the sink answers to three pieces.
fn put_three(sink: &mut MemSink) -> [Result<(), Failed>; 3] {
    [put(sink, b"abc"), put(sink, b"de"), put(sink, b"def")]
}

#[test]
fn one_fault_in_mid_sink(rt: HostRuntime) -> Result<(), AllocError> {
    let mut sink = sink_with_fault(rt.alloc())?;
    assert!(rt; put_three(&mut sink) == [Ok(()), Err(Failed), Err(Failed)]);
    assert!(rt; sink.bytes() == b"abcde".as_slice());
    Ok(())
}

#[test]
fn null_sink_takes_all(rt: HostRuntime) {
    assert!(rt; put(&mut NullSink::new(), b"abc") == Ok(()));
}

#[test]
fn passes_on_what_std_reads_and_writes(rt: HostRuntime) -> Result<(), AllocError> {
    let alloc = rt.alloc();
    let mut source = StdSource::new(b"abcdef".as_slice());
    assert!(rt; count_to_end(alloc, &mut source, 6) == Ok(6));
    let mut place = [0u8; 4];
    let mut sink = StdSink::new(place.as_mut_slice());
    assert!(rt; put(&mut sink, b"abcdef") == Err(Failed));
    assert!(rt; place == *b"abcd");
    NoGate.started(0, 0);
    Ok(())
}
