//! What no clause says: that the workers of `pass_with` and of `inline` draw from one table, and go on where one of
//! them is held.
ghost use Rattle.std.specs.Prelude.{◌≡◌, ◌≤◌, ◌<◌};

use crate::{Status, command};
use clif_check::check_text;
use clk_flow::{Gate, MemSink, MemSource};
use crossbeam_utils::Backoff;
use inline_finish::Policy;
use ir_check::Checked;
use std::alloc::{AllocError, Global};
use std::marker::Brand;
use std::sync::Wait;
use std::sync::atomic::{AtomicBool, Ordering};
use std::sync::ledger::{Blank, Ledger};
use std::thread::Threads;
use worker_driver::{Steps, pass_with};

/// How often a held worker looks whether it may go on.
const TURNS: u64 = 100_000_000;

/// Holds the worker that starts ticket 0 until ticket 2 is started.
#[derive(Drop)]
struct HeldGate {
    later: AtomicBool,
    /// Whether the worker went on while ticket 2 was not started.
    gave_up: AtomicBool,
}

impl HeldGate {
    /// The gate at which nothing was started.
    fn new() -> HeldGate {
        HeldGate {
            later: AtomicBool::new(false),
            gave_up: AtomicBool::new(false),
        }
    }

    /// Whether ticket 2 was started while ticket 0 was held.
    fn saw_both(&self) -> bool {
        self.later.load(Ordering::SeqCst) && !self.gave_up.load(Ordering::SeqCst)
    }
}

impl Gate for HeldGate {
    fn started(&self, _worker: usize, ticket: usize) {
        if ticket == 2 {
            self.later.store(true, Ordering::SeqCst);
        }
        if ticket == 0 {
            let backoff = Backoff::new();
            for _ in 0..TURNS {
                if self.later.load(Ordering::SeqCst) {
                    return;
                }
                backoff.snooze();
            }
            self.gave_up.store(true, Ordering::SeqCst);
        }
    }
}

/// Two functions that call none, and one that calls the second.
const THREE: &[u8] = b"function %a() fast {\nblock0:\n    return\n}\n\n\
    function %b() fast {\nblock0:\n    nop\n    return\n}\n\n\
    function %c() fast {\n    sig0 = () fast\n    fn0 = %b sig0\n\n\
    block0:\n    call fn0()\n    return\n}\n";

/// Whether two workers finish a module, who announce at the gate what they start.
fn is_finished_by<R: Threads + Wait + Sync, G: Gate, L: Ledger>(
    rt: &R,
    alloc: Global,
    module: &Checked,
    gate: &G,
    blank: Blank,
) -> bool
    requires { (blank.name ≡ L.name) × (blank.parts ≡ L.parts) × (0 < blank.parts) }
{
    let policy = Policy {
        callee_size: 64,
        caller_size: 4096,
    };
    let mut steps: Steps<L> = Steps::open(blank);
    pass_with(rt, alloc, module, policy, 2, gate, &mut steps).is_ok()
}

/// The same by a counter that is made here.
fn is_finished<R: Threads + Wait + Sync, G: Gate>(
    rt: &R,
    alloc: Global,
    module: &Checked,
    gate: &G,
) -> bool {
    is_finished_by::<R, G, Brand>(rt, alloc, module, gate, Blank::new(1))
}

/// The status of `inline` by two workers, who announce at the gate what they start.
fn inlined<R: Threads + Wait + Sync, G: Gate>(
    rt: &R,
    alloc: Global,
    text: &[u8],
    gate: &G,
) -> Result<Status, AllocError> {
    let mut words = Vec::new(alloc);
    for word in ["clifinl", "inline", "--workers=2"] {
        words.push(String::from_str(alloc, word)?)?;
    }
    let mut input = MemSource::new(Vec::from_slice(alloc, text)?, vec![in alloc; 99]?, 40);
    let mut out = MemSink::new(alloc, Vec::new(alloc), 1000)?;
    let mut err = MemSink::new(alloc, Vec::new(alloc), 1000)?;
    let words = words.as_slice();
    Ok(command(rt, alloc, words, &mut input, &mut out, &mut err, gate))
}

#[test]
fn a_held_worker_does_not_hold_the_others(rt: HostRuntime) -> Result<(), AllocError> {
    let alloc = rt.alloc();
    let Ok(module) = check_text(&rt, alloc, THREE, 1) else {
        panic!(&rt; "refused");
    };
    let gate = HeldGate::new();
    assert!(rt; is_finished(&rt, alloc, &module, &gate));
    assert!(rt; gate.saw_both());
    let gate = HeldGate::new();
    assert!(rt; inlined(&rt, alloc, THREE, &gate)? == Status::Done);
    assert!(rt; gate.saw_both());
    Ok(())
}
