//! What no clause says: that memory suffices for a small module, of which several workers make what one thread makes.
ghost use Rattle.std.specs.Prelude.{◌≡◌, ◌≤◌, ◌<◌};
ghost use Rattle.inline_finish.specs.Building.{IsLimited};

use clif_check::check_text;
use clif_numbers::{func_numbers, numbering};
use clif_print::{print, put_function};
use clk_flow::{MemSink, NoGate};
use inline_finish::{Passed, Policy};
use ir_check::Checked;
use module_pass::pass;
use std::alloc::Global;
use std::marker::Brand;
use std::sync::Wait;
use std::sync::ledger::{Blank, Ledger};
use std::thread::Threads;
use text_output::{MemoryOutput, Output};
use worker_driver::{Finished, Steps, finish_with};

/// A function that calls none, which has ticket 0; a chain of calls, `%a`, `%b` and `%c`, which have the tickets 3, 2
/// and 1; and two functions that call each other.
const TEXT: &str = "function %z(i64) -> i64 fast {
block0(v0: i64):
    v1 = iadd v0, v0
    return v1
}

function %a(i64) -> i64 fast {
    fn0 = colocated %b(i64) -> i64 fast
    fn1 = colocated %z(i64) -> i64 fast
block0(v0: i64):
    v1 = call fn0(v0)
    v2 = call fn0(v1)
    v3 = call fn1(v2)
    return v3
}

function %b(i64) -> i64 fast {
    fn0 = colocated %c(i64) -> i64 fast
block0(v0: i64):
    v1 = call fn0(v0)
    return v1
}

function %c(i64) -> i64 fast {
block0(v0: i64):
    v1 = iadd v0, v0
    return v1
}

function %d(i64) -> i64 fast {
    fn0 = colocated %e(i64) -> i64 fast
    fn1 = colocated %c(i64) -> i64 fast
block0(v0: i64):
    v1 = call fn0(v0)
    v2 = call fn1(v1)
    return v2
}

function %e(i64) -> i64 fast {
    fn0 = colocated %d(i64) -> i64 fast
block0(v0: i64):
    v1 = call fn0(v0)
    return v1
}
";

/// Sizes that allow each call of the text to be inlined.
fn policy() -> Policy
    ensures { IsLimited result }
{
    Policy {
        callee_size: 64,
        caller_size: 4096,
    }
}

/// The canonical text of finished bodies, and how many sites were inlined into them.
fn told(alloc: Global, passed: &Passed) -> Option<(Vec<u8>, u128)> {
    let functions = passed.module.module();
    let numbers = numbering(alloc, functions).ok()?;
    let mut out = MemSink::new(alloc, Vec::new(alloc), 1_000_000).ok()?;
    print(functions, &numbers, &mut out).ok()?;
    let text = Vec::from_slice(alloc, out.bytes()).ok()?;
    Some((text, passed.inlined))
}

/// The canonical text of finished bodies, which stay where they stand.
fn text_of(alloc: Global, finished: &Finished) -> Option<Vec<u8>> {
    let mut out = MemoryOutput::new(alloc);
    for place in 0..finished.len() {
        if place != 0 {
            out.put(b"\n");
        }
        let func = finished.func(place);
        let numbers = func_numbers(alloc, func).ok()?;
        put_function(&mut out, func, &numbers);
    }
    out.finish().ok()
}

/// The canonical text of the finished bodies that so many workers make.
fn made_by<R: Threads + Wait + Sync, L: Ledger>(
    rt: &R,
    alloc: Global,
    module: &Checked,
    workers: usize,
    blank: Blank,
) -> Option<Vec<u8>>
    requires workers { (1 ≤ workers) × (workers ≤ 64) }
    requires blank { (blank.name ≡ L.name) × (blank.parts ≡ L.parts) × (0 < blank.parts) }
{
    let mut steps: Steps<L> = Steps::open(blank);
    let finished = finish_with(rt, alloc, module, policy(), workers, &NoGate, &mut steps).ok()?;
    text_of(alloc, &finished)
}

/// The same by a counter that is made here.
fn made<R: Threads + Wait + Sync>(
    rt: &R,
    alloc: Global,
    module: &Checked,
    workers: usize,
) -> Option<Vec<u8>>
    requires { (1 ≤ workers) × (workers ≤ 64) }
{
    made_by::<R, Brand>(rt, alloc, module, workers, Blank::new(1))
}

/// What one thread makes of a module.
fn made_alone_by<L: Ledger>(
    alloc: Global,
    module: &Checked,
    blank: Blank,
) -> Option<(Vec<u8>, u128)>
    requires { (blank.name ≡ L.name) × (blank.parts ≡ L.parts) × (0 < blank.parts) }
{
    let mut steps: Steps<L> = Steps::open(blank);
    let passed = pass(alloc, module, policy(), &mut steps).ok()?;
    told(alloc, &passed)
}

/// The same by a counter that is made here.
fn made_alone(alloc: Global, module: &Checked) -> Option<(Vec<u8>, u128)> {
    made_alone_by::<Brand>(alloc, module, Blank::new(1))
}

#[test]
fn workers_make_what_one_thread_makes(rt: HostRuntime) {
    let alloc = rt.alloc();
    let Ok(module) = check_text(&rt, alloc, TEXT.as_bytes(), 1) else {
        panic!(&rt; "refused");
    };
    let Some((text, inlined)) = made_alone(alloc, &module) else {
        panic!(&rt; "no memory");
    };
    assert_eq!(rt; inlined, 5);
    for workers in [1, 3, 64] {
        let made = made(&rt, alloc, &module, workers);
        assert!(rt; made.is_some_and(|made| made == text), "{workers} workers");
    }
}
