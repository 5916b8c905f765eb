//! What no clause says: that memory suffices to replace a call of each kind, in two steps and in one.
ghost use Rattle.std.specs.Prelude.{◌≡◌, ◌<◌, []};
ghost use Rattle.ir_core.specs.WellFormed.{WellFormed};
ghost use Rattle.ir_semantics.specs.Accepted.{RulesHold};
ghost use Rattle.inline_caller.specs.Replacing.{CanReplace};

use crate::sites::{can_replace, first_line, function};
use clif_check::check_text;
use clif_numbers::func_numbers;
use clif_print::put_function;
use inline_caller::{prepare, put_prepared, splice};
use ir_check::Checked;
use ir_core::{Func, Point};
use std::alloc::Global;
use std::marker::Brand;
use std::sync::ledger::{Blank, Ledger};
use std::thread::Threads;
use step_counter::Steps;
use text_output::{MemoryOutput, Output};

/// A plain call of a function that ends in a tail call, and what it becomes.
const PLAIN: &str = "function %g(i64) -> i64 tail {
    fn0 = %h(i64) -> i64 tail
block0(v0: i64):
    return_call fn0(v0)
}
function %f(i64) -> i64 {
    fn0 = %g(i64) -> i64 tail
block0(v0: i64):
    v1 = call fn0(v0)
    return v1
}
";

const PLAIN_REPLACED: &str = "function %f(i64) -> i64 fast {
    sig0 = (i64) -> i64 tail
    fn0 = %g sig0
    fn1 = %h sig0

block0(v0: i64):
    jump block1(v0)

block1(v1: i64):
    v2 = call fn1(v1)
    jump block2(v2)

block2(v3: i64):
    return v3
}
";

/// A tail call of a function with a slot and a call, and what it becomes.
const TAIL: &str = "function %g(i64) -> i64 tail {
    ss0 = explicit_slot 8
    fn0 = %h(i64) -> i64 tail
block0(v0: i64):
    stack_store v0, ss0
    v1 = call fn0(v0)
    return v1
}
function %f(i64) -> i64 tail {
    fn0 = %g(i64) -> i64 tail
block0(v0: i64):
    return_call fn0(v0)
}
";

const TAIL_REPLACED: &str = "function %f(i64) -> i64 tail {
    ss0 = explicit_slot 8
    sig0 = (i64) -> i64 tail
    fn0 = %g sig0
    fn1 = %h sig0

block0(v0: i64):
    jump block1(v0)

block1(v1: i64):
    stack_store v1, ss0
    v2 = call fn1(v1)
    return v2
}
";

/// A `try_call` of a function with a `try_call`, and what it becomes: the inner table comes before the outer one.
const TRY: &str = "function %g(i64) -> i64 {
    sig0 = (i64) -> i64
    fn0 = %h sig0
block0(v0: i64):
    try_call fn0(v0), sig0, block1(ret0), [ tag1: block2(exn0) ]
block1(v1: i64):
    return v1
block2(v2: i64):
    return v2
}
function %f(i64) -> i64 {
    sig0 = (i64) -> i64
    fn0 = %g sig0
block0(v0: i64):
    try_call fn0(v0), sig0, block1(ret0), [ tag1: block2(exn0), tag2: block2(exn1), default: block2(exn0) ]
block1(v1: i64):
    return v1
block2(v2: i64):
    return v2
}
";

const TRY_REPLACED: &str = "function %f(i64) -> i64 fast {
    sig0 = (i64) -> i64 fast
    fn0 = %g sig0
    fn1 = %h sig0

block0(v0: i64):
    jump block1(v0)

block1(v1: i64):
    try_call fn1(v1), sig0, block2(ret0), \
    [ tag1: block3(exn0), tag1: block5(exn0), tag2: block5(exn1), default: block5(exn0) ]

block2(v2: i64):
    jump block4(v2)

block3(v3: i64):
    jump block4(v3)

block4(v4: i64):
    return v4

block5(v5: i64):
    return v5
}
";

/// The canonical text of a function. `None` where it is not whole.
fn text_of(alloc: Global, func: &Func) -> Option<Vec<u8>> {
    if !func.whole() {
        return None;
    }
    let numbers = func_numbers(alloc, func).ok()?;
    let mut out = MemoryOutput::new(alloc);
    put_function(&mut out, func, &numbers);
    out.finish().ok()
}

/// How a call is replaced: by `prepare` and then `put_prepared`, or by `splice`.
#[derive(Clone, Copy)]
enum Way {
    TwoSteps,
    OneStep,
}

/// Replaces a call that can be replaced. `None` where memory runs out.
#[tactic(auto, using(inline_caller::proofs::PreparedCalls::can_put))]
fn replace<L: Ledger>(
    alloc: Global,
    caller: &mut Func,
    site: Point,
    callee: &Func,
    way: Way,
    steps: &mut Steps<L>,
) -> Option<()>
    requires { CanReplace caller.old.function callee.now.function site }
{
    match way {
        Way::TwoSteps => {
            let call = prepare(alloc, caller, site, callee).ok()?;
            put_prepared(caller, call, steps);
            Some(())
        }
        Way::OneStep => splice(alloc, caller, site, callee, steps).ok(),
    }
}

/// Replaces the first line of a caller by the body of a callee. `None` where it is no call that can be replaced, and
/// where memory runs out.
fn replace_first<L: Ledger>(
    alloc: Global,
    caller: &mut Func,
    callee: &Func,
    way: Way,
    steps: &mut Steps<L>,
) -> Option<()>
    requires whole { WellFormed caller.old.function × WellFormed callee.now.function }
    requires accepted { RulesHold [] caller.old.function × RulesHold [] callee.now.function }
{
    let Point { block, index } = first_line(caller)?;
    let Ok(true) = can_replace(alloc, caller, Point { block, index }, callee) else {
        return None;
    };
    replace(alloc, caller, Point { block, index }, callee, way, steps)
}

/// The second function of a module, with its first line replaced by the body of the first function.
fn replaced_by<L: Ledger>(
    alloc: Global,
    checked: &Checked,
    way: Way,
    blank: Blank,
) -> Option<Vec<u8>>
    requires { (blank.name ≡ L.name) × (blank.parts ≡ L.parts) × (0 < blank.parts) }
{
    let mut steps: Steps<L> = Steps::open(blank);
    if checked.module().len() != 2 {
        return None;
    }
    let callee = function(checked.module(), 0);
    let mut caller = function(checked.module(), 1).copy().ok()?;
    replace_first(alloc, &mut caller, callee, way, &mut steps)?;
    text_of(alloc, &caller)
}

/// The same by a counter that is made here.
fn replaced(alloc: Global, checked: &Checked, way: Way) -> Option<Vec<u8>> {
    replaced_by::<Brand>(alloc, checked, way, Blank::new(1))
}

/// Whether the second function of a module becomes the text that way.
fn becomes_by(alloc: Global, checked: &Checked, way: Way, text: &str) -> bool {
    replaced(alloc, checked, way).is_some_and(|found| found.as_slice() == text.as_bytes())
}

/// Whether the second function of a text becomes the other text, in two steps and in one.
fn becomes<R: Threads + Sync>(rt: &R, alloc: Global, text: &str, other: &str) -> bool {
    let Ok(checked) = check_text(rt, alloc, text.as_bytes(), 1) else {
        return false;
    };
    becomes_by(alloc, &checked, Way::TwoSteps, other)
        && becomes_by(alloc, &checked, Way::OneStep, other)
}

#[test]
fn plain_call_replaced(rt: HostRuntime) {
    assert!(rt; becomes(&rt, rt.alloc(), PLAIN, PLAIN_REPLACED));
}

#[test]
fn tail_call_replaced(rt: HostRuntime) {
    assert!(rt; becomes(&rt, rt.alloc(), TAIL, TAIL_REPLACED));
}

#[test]
fn try_call_replaced(rt: HostRuntime) {
    assert!(rt; becomes(&rt, rt.alloc(), TRY, TRY_REPLACED));
}
