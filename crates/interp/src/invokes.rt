//! Calls of what a call finds: a function of the module, a host function, or nothing.
ghost use Rattle.std.specs.Prelude.{◌≡◌, ◌∷◌, ◌++◌, [], map, IfOk, OnOk};
ghost use Rattle.ir_core.specs.Module.{Module as RunModule};
ghost use Rattle.clk_num.specs.Views.{data_of_all};
ghost use Rattle.ir_core.specs.Viewed.{line_of};
ghost use Rattle.ir_semantics.specs.Machine.{Host};
ghost use Rattle.ir_semantics.specs.Step as step;
ghost use Rattle.host_script.specs.Script.{reply_of};
ghost use Rattle.interp.specs.Outcome.{shown_of};
ghost use Rattle.interp.specs.State.{frame_of, waits_of, world_of, moment, target_of, Linked};

use crate::calls::{call, return_call};
use crate::hosts::reply;
use crate::outcome::{End, Event, Shown};
use crate::registers::Registers;
use crate::shows::show;
use crate::state::{Frame, Program, Stop, Target, Wait, World};
use byte_store::Slots;
use clk_num::{Bits, TrapCode};
use ir_core::{FuncName, InstData, List, Sig};
use std::alloc::{AllocError, Global};
use std::mem;

/// A call of a host function is recorded, and its reply is taken.
fn call_host<'m>(
    alloc: Global,
    program: &Program<'m>,
    top: &mut Frame<'m>,
    below: &mut Vec<Wait<'m>>,
    world: &mut World<'m>,
    name: &FuncName,
    sig: &Sig,
    shown: Vec<Shown>,
    values: &mut Vec<Bits>,
    xs: &mut Vec<Bits>,
) -> Result<Option<Stop>, AllocError>
    requires linked { Linked program.now }
    ensures { IfOk result (λ r. moment program.now.module.now top.new below.new.items (world_of world.new) r
        ≡ step.reply sig.now (waits_of program.now.module.now below.old.items)
        (step.with_event (world_of world.old)
        (Host name.now (data_of_all values.old.items) (map shown_of shown.items)))
        (map reply_of world.old.replies.now)) }
{
    let args = Vec::from_slice(alloc, values.as_slice())?;
    let event = Event::Host {
        name: name.clone()?,
        args: List::from_vec(args),
        shown: List::from_vec(shown),
    };
    world.events.push(event)?;
    reply(alloc, program, top, below, world, sig, values, xs)
}

/// Puts the frame on top below, to wait at a line. The new frame on top is none that runs.
fn push_wait<'m>(
    alloc: Global,
    top: &mut Frame<'m>,
    below: &mut Vec<Wait<'m>>,
    line: &'m InstData,
) -> Result<(), AllocError>
    ensures { OnOk result ((m : RunModule) → waits_of m below.new.items
        ≡ record { line = line_of line.now; frame = frame_of m top.old } ∷ waits_of m below.old.items) }
{
    let idle = Frame {
        at: 0,
        rest: &[],
        values: Registers::new(alloc),
        slots: Slots::new(alloc),
        extra: Vec::new(alloc),
    };
    let frame = mem::replace(top, idle);
    below.push(Wait { line, frame })?;
    Ok(())
}

/// A call of what was found, above the frame on top.
pub fn invoke<'m>(
    alloc: Global,
    program: &Program<'m>,
    top: &mut Frame<'m>,
    below: &mut Vec<Wait<'m>>,
    world: &mut World<'m>,
    line: &'m InstData,
    target: Target<'m>,
    values: &mut Vec<Bits>,
    xs: &mut Vec<Bits>,
) -> Result<Option<Stop>, AllocError>
    requires linked { Linked program.now }
    ensures { IfOk result
        (λ r. let m = program.now.module.now in let s = record { line = line_of line.now; frame = frame_of m top.old }
        ∷ waits_of m below.old.items in moment m top.new below.new.items (world_of world.new) r
        ≡ step.invoke (target_of m target.entry) (data_of_all values.old.items) [] (step.shown s) s
        (world_of world.old)) }
{
    match target {
        Target::Inside(at) => call(alloc, program, top, below, line, at, values),
        Target::Outside(name, sig) => {
            let Some(shown) = show(alloc, program, top, below.as_slice(), line)? else {
                return Ok(Some(Stop::At(End::Unwritten)));
            };
            push_wait(alloc, top, below, line)?;
            call_host(
                alloc, program, top, below, world, name, sig, shown, values, xs,
            )
        }
        Target::Nowhere => Ok(Some(Stop::At(End::Trapped(TrapCode::HeapOob)))),
        Target::Missing => Ok(Some(Stop::Stuck)),
    }
}

/// A call of what was found, in place of the frame on top. `own` are the numbers that the line's tags are: a new frame
/// takes over the numbers in front of the tags, and these behind them, so a call costs nothing for those before it.
pub fn invoke_tail<'m>(
    alloc: Global,
    program: &Program<'m>,
    top: &mut Frame<'m>,
    below: &mut Vec<Wait<'m>>,
    world: &mut World<'m>,
    line: &'m InstData,
    target: Target<'m>,
    own: &[u32],
    values: &mut Vec<Bits>,
    xs: &mut Vec<Bits>,
) -> Result<Option<Stop>, AllocError>
    requires linked { Linked program.now }
    ensures { IfOk result
        (λ r. let m = program.now.module.now in let s = waits_of m below.old.items in moment m top.new below.new.items
        (world_of world.new) r
        ≡ step.invoke (target_of m target.entry) (data_of_all values.old.items) (top.old.extra.items ++ own.now)
        (step.shown (record { line = line_of line.now; frame = frame_of m top.old } ∷ s)) s (world_of world.old)) }
{
    match target {
        Target::Inside(at) => {
            top.extra.extend_from_slice(own)?;
            return_call(alloc, program, top, at, values)
        }
        Target::Outside(name, sig) => {
            let Some(shown) = show(alloc, program, top, below.as_slice(), line)? else {
                return Ok(Some(Stop::At(End::Unwritten)));
            };
            call_host(
                alloc, program, top, below, world, name, sig, shown, values, xs,
            )
        }
        Target::Nowhere => Ok(Some(Stop::At(End::Trapped(TrapCode::HeapOob)))),
        Target::Missing => Ok(Some(Stop::Stuck)),
    }
}
