//! What no clause says of numbers that workers draw: that each of them is drawn, so that there are results.
use range_workers::map_drawn;
use std::alloc::{AllocError, Global};
use std::thread::Threads;

/// Whether these are the halves of the numbers below 100, in order.
fn are_halves(halves: &[usize]) -> bool {
    for (number, half) in halves.iter().enumerate() {
        if *half != number / 2 {
            return false;
        }
    }
    halves.len() == 100
}

/// The halves of the numbers below `count`.
fn halves<R: Threads + Sync>(
    rt: &R,
    alloc: Global,
    count: usize,
    workers: usize,
) -> Result<Vec<usize>, AllocError> {
    map_drawn(rt, alloc, count, workers, &|number| number / 2)
}

#[test]
fn each_number_is_drawn(rt: HostRuntime) -> Result<(), AllocError> {
    for workers in [0, 1, 2, 5, 200] {
        let halves = halves(&rt, rt.alloc(), 100, workers)?;
        assert!(rt; are_halves(halves.as_slice()), "by {workers}");
    }
    assert!(rt; halves(&rt, rt.alloc(), 0, 5)?.is_empty());
    Ok(())
}
