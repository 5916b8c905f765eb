//! The loop over a function's own lines.
ghost use Rattle.std.specs.Prelude.{◌≡◌, ◌+◌, ◌≤◌, ◌∷◌, [], length, map, OnOk};
ghost use Rattle.ir_core.specs.Edits.{IsPoint};
ghost use Rattle.ir_core.specs.Lookup.{block_numbers};
ghost use Rattle.ir_core.specs.Lists.{In};
ghost use Rattle.ir_core.specs.Sound.{IsSound};
ghost use Rattle.ir_core.specs.Viewed.{line_of};
ghost use Rattle.call_graph.specs.Marks.{target_by};
ghost use Rattle.inline_pass.specs.Going.{finishing};
ghost use Rattle.inline_finish.specs.Bodies.{HasCallees};
ghost use Rattle.inline_finish.specs.Building.{policy_of};
ghost use Rattle.inline_finish.specs.Midway.{IsReady, IsMidway, IsBehind, IsBetween, IsOwnLine, left_in, from_block};
ghost use Rattle.inline_finish.specs.Midway.{behind_block, passed_line};
ghost use Rattle.inline_finish.specs.Targets.{targets_in};

use crate::bodies::{Bodies, Policy};
use crate::deciding::decide;
use call_graph::callee_number;
use inline_caller::Caller;
use ir_core::{Block, Func, InstData, Point};
use std::alloc::{AllocError, Global};
use std::sync::ledger::Ledger;
use step_counter::Steps;

/// A function while bodies are put into it: what it is so far, its size, where the next of its own lines stands, and
/// how many of its sites were inlined.
#[derive(Drop)]
pub(crate) struct Progress {
    pub caller: Caller,
    pub size: usize,
    pub at: Point,
    pub inlined: u64,
}

/// Behind a line at which nothing is inlined.
fn pass_line(progress: &mut Progress)
    requires { IsPoint progress.old.caller progress.old.at }
    ensures { progress.new ≡ passed_line progress.old }
{
    let _count = progress.caller.func().values();
    progress.at.index += 1;
}

/// The number of the block behind a body that comes in.
fn block_behind(caller: &Caller) -> Block
    ensures number { result ≡ length caller.now.blocks + 1 }
    ensures sound { IsSound caller.now }
{
    let _count = caller.func().values();
    Block::new(caller.block_count() + 1)
}

/// Looks at one of the function's own lines, `line`, with these `after` it in the same block: where it is a site that
/// the policy takes, the callee's finished body comes in its place.
fn finish_line<B: Bodies, L: Ledger>(
    alloc: Global,
    own: &Func,
    targets: &[Option<usize>],
    bodies: &B,
    policy: Policy,
    block: Block,
    line: &InstData,
    after: &[InstData],
    progress: &mut Progress,
    steps: &mut Steps<L>,
) -> Result<(), AllocError>
    requires ready { IsReady (policy_of policy) (B.functions bodies.now) own.now.function }
    requires policy { B.policy bodies.now ≡ policy_of policy }
    requires targets { targets.now ≡ targets_in (B.functions bodies.now) own.now.function }
    requires has { HasCallees (B.functions bodies.now) own.now.function (B.has bodies.now) }
    requires own { IsOwnLine own.now.function block (line_of line.now) }
    requires midway { IsMidway (finishing (policy_of policy) (B.functions bodies.now) own.now.function)
        (left_in own.now.function block (map line_of (line.now ∷ after.now))) progress.old }
    ensures behind { OnOk result (IsBehind (finishing (policy_of policy) (B.functions bodies.now) own.now.function)
        (left_in own.now.function block (map line_of after.now)) progress.new) }
    ensures counted { OnOk result (steps.new + progress.old.inlined ≡ steps.old + progress.new.inlined) }
    ensures rises { steps.old ≤ steps.new }
{
    let callee = match callee_number(targets, line) {
        Some(callee) => callee,
        None => {
            pass_line(progress);
            return Ok(());
        }
    };
    let body = bodies.body(callee);
    let counts = bodies.counts(callee);
    splice_size::laws::splice_size_under();
    let decided = decide(
        alloc,
        policy,
        &progress.caller,
        progress.size,
        progress.at,
        line,
        body,
        counts,
    )?;
    let taken = match decided {
        Some(taken) => taken,
        None => {
            pass_line(progress);
            return Ok(());
        }
    };
    let behind = Point {
        block: block_behind(&progress.caller),
        index: 0,
    };
    splice_bounds::laws::plain_call_has_numbers();
    splice_bounds::laws::tail_call_has_numbers();
    splice_bounds::laws::try_call_has_numbers();
    progress
        .caller
        .splice(alloc, progress.at, body, taken.import, steps)?;
    let _size = own.values();
    let _count = progress.caller.func().values();
    progress.size = taken.size;
    progress.at = behind;
    progress.inlined += 1;
    Ok(())
}

/// Looks at the lines of one of the function's own blocks.
fn finish_block<B: Bodies, L: Ledger>(
    alloc: Global,
    own: &Func,
    targets: &[Option<usize>],
    bodies: &B,
    policy: Policy,
    block: Block,
    progress: &mut Progress,
    steps: &mut Steps<L>,
) -> Result<(), AllocError>
    requires ready { IsReady (policy_of policy) (B.functions bodies.now) own.now.function }
    requires policy { B.policy bodies.now ≡ policy_of policy }
    requires targets { targets.now ≡ targets_in (B.functions bodies.now) own.now.function }
    requires has { HasCallees (B.functions bodies.now) own.now.function (B.has bodies.now) }
    requires there { In block (block_numbers own.now.function.blocks) }
    requires between { IsBetween (finishing (policy_of policy) (B.functions bodies.now) own.now.function)
        (from_block block own.now.function.blocks) progress.old }
    ensures between { OnOk result (IsBetween (finishing (policy_of policy) (B.functions bodies.now) own.now.function)
        (behind_block block own.now.function.blocks) progress.new) }
    ensures counted { OnOk result (steps.new + progress.old.inlined ≡ steps.old + progress.new.inlined) }
    ensures rises { steps.old ≤ steps.new }
{
    progress.at = Point { block, index: 0 };
    let mut rest = own.inst_slice(block);
    'lines: while let Some((line, after)) = rest.split_first() {
        finish_line(
            alloc, own, targets, bodies, policy, block, line, after, progress, steps,
        )?;
        rest = after;
    }
    Ok(())
}

/// Looks at all of the function's own lines.
pub(crate) fn finish_blocks<B: Bodies, L: Ledger>(
    alloc: Global,
    own: &Func,
    targets: &[Option<usize>],
    bodies: &B,
    policy: Policy,
    progress: &mut Progress,
    steps: &mut Steps<L>,
) -> Result<(), AllocError>
    requires ready { IsReady (policy_of policy) (B.functions bodies.now) own.now.function }
    requires policy { B.policy bodies.now ≡ policy_of policy }
    requires targets { targets.now ≡ targets_in (B.functions bodies.now) own.now.function }
    requires has { HasCallees (B.functions bodies.now) own.now.function (B.has bodies.now) }
    requires between { IsBetween (finishing (policy_of policy) (B.functions bodies.now) own.now.function)
        own.now.function.blocks progress.old }
    ensures between { OnOk result
        (IsBetween (finishing (policy_of policy) (B.functions bodies.now) own.now.function) [] progress.new) }
    ensures counted { OnOk result (steps.new + progress.old.inlined ≡ steps.old + progress.new.inlined) }
    ensures rises { steps.old ≤ steps.new }
{
    for block in own.blocks() {
        finish_block(alloc, own, targets, bodies, policy, block, progress, steps)?;
    }
    Ok(())
}
