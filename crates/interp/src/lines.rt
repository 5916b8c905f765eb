//! Instructions that return, call or show.
ghost use Rattle.std.specs.Prelude.{◌≡◌, true, false, IfOk};
ghost use Rattle.ir_core.specs.Module.{Direct};
ghost use Rattle.ir_semantics.specs.Values.{all_of};
ghost use Rattle.ir_semantics.specs.Machine.{World as RunWorld, Stuck};
ghost use Rattle.ir_semantics.specs.Effect.{ShowTags, Give, need, calls};
ghost use Rattle.interp.specs.State.{env_of, world_of, moment, done, Linked};

use crate::calls::{add_numbers, find_callee, resume};
use crate::invokes::{invoke, invoke_tail};
use crate::moves::read_all;
use crate::outcome::{End, Event};
use crate::shows::show;
use crate::state::{Frame, Program, Stop, Wait, World};
use clk_num::Bits;
use ir_core::{FuncRef, InstData, List, Value};
use std::alloc::{AllocError, Global};

/// Records what is shown at a sequence point.
pub fn sequence_point<'m>(
    alloc: Global,
    program: &Program<'m>,
    top: &Frame<'m>,
    below: &[Wait<'m>],
    world: &mut World<'m>,
    line: &InstData,
) -> Result<Option<Stop>, AllocError>
    ensures { IfOk result (λ r. moment program.now.module.now top.now below.now (world_of world.new) r
        ≡ done program.now.module.now top.now below.now (world_of world.old) line.now ShowTags) }
{
    let Some(shown) = show(alloc, program, top, below, line)? else {
        return Ok(Some(Stop::At(End::Unwritten)));
    };
    let event = Event::Point {
        shown: List::from_vec(shown),
    };
    world.events.push(event)?;
    Ok(None)
}

/// Returns values to the frame that waits next.
pub fn give_back<'m>(
    alloc: Global,
    program: &Program<'m>,
    top: &mut Frame<'m>,
    below: &mut Vec<Wait<'m>>,
    line: &InstData,
    args: &[Value],
    values: &mut Vec<Bits>,
    xs: &mut Vec<Bits>,
) -> Result<Option<Stop>, AllocError>
    requires linked { Linked program.now }
    ensures { IfOk result (λ r. (w : RunWorld) → moment program.now.module.now top.new below.new.items w r
        ≡ done program.now.module.now top.old below.old.items w line.now
        (need (all_of (env_of top.old.values) args.now) Stuck (λ vs. Give vs))) }
{
    if !read_all(&top.values, args, values)? {
        return Ok(Some(Stop::Stuck));
    }
    resume(alloc, program, top, below, values, xs)
}

/// A call of a callee declaration, above the frame on top.
pub fn call_callee<'m>(
    alloc: Global,
    program: &Program<'m>,
    top: &mut Frame<'m>,
    below: &mut Vec<Wait<'m>>,
    world: &mut World<'m>,
    line: &'m InstData,
    callee: FuncRef,
    args: &[Value],
    values: &mut Vec<Bits>,
    xs: &mut Vec<Bits>,
) -> Result<Option<Stop>, AllocError>
    requires linked { Linked program.now }
    ensures { IfOk result (λ r. moment program.now.module.now top.new below.new.items (world_of world.new) r
        ≡ done program.now.module.now top.old below.old.items (world_of world.old) line.now
        (calls (env_of top.old.values) (Direct callee) args.now false)) }
{
    if !read_all(&top.values, args, values)? {
        return Ok(Some(Stop::Stuck));
    }
    let target = find_callee(program, top.at, callee);
    invoke(alloc, program, top, below, world, line, target, values, xs)
}

/// A call of a callee declaration, in place of the frame on top.
pub fn tail_call_callee<'m>(
    alloc: Global,
    program: &Program<'m>,
    top: &mut Frame<'m>,
    below: &mut Vec<Wait<'m>>,
    world: &mut World<'m>,
    line: &'m InstData,
    callee: FuncRef,
    args: &[Value],
    values: &mut Vec<Bits>,
    xs: &mut Vec<Bits>,
) -> Result<Option<Stop>, AllocError>
    requires linked { Linked program.now }
    ensures { IfOk result (λ r. moment program.now.module.now top.new below.new.items (world_of world.new) r
        ≡ done program.now.module.now top.old below.old.items (world_of world.old) line.now
        (calls (env_of top.old.values) (Direct callee) args.now true)) }
{
    if !read_all(&top.values, args, values)? {
        return Ok(Some(Stop::Stuck));
    }
    let mut own = Vec::new(alloc);
    if !add_numbers(line.tags.list(), &mut own)? {
        return Ok(Some(Stop::Stuck));
    }
    let target = find_callee(program, top.at, callee);
    invoke_tail(
        alloc, program, top, below, world, line, target, &own, values, xs,
    )
}
