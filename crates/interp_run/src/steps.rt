//! Steps of a run.
ghost use Rattle.std.specs.Prelude.{◌≡◌, ◌<◌, [], map, length, Some, IfOk};
ghost use Rattle.clk_num.specs.Views.{data_of_all};
ghost use Rattle.ir_semantics.specs.Machine.{On};
ghost use Rattle.ir_semantics.specs.Step as definition;
ghost use Rattle.ir_semantics.specs.Runs.{run, first, shows};
ghost use Rattle.host_script.specs.Script.{reply_of};
ghost use Rattle.interp.specs.State.{found_at, frame_of, waits_of, world_of, moment, stop_of, Linked};
ghost use Rattle.interp_run.specs.Addressing.{IsAddressed};

use crate::act::act;
use crate::addresses::Addresses;
use byte_store::Memory;
use clk_num::Bits;
use host_script::Reply;
use interp::{End, Frame, Program, Stop, Wait, World, begin};
use std::alloc::{AllocError, Global};

/// One step: one instruction, with all that follows from it.
fn step<'m>(
    alloc: Global,
    program: &Program<'m>,
    addresses: &Addresses<'m>,
    top: &mut Frame<'m>,
    below: &mut Vec<Wait<'m>>,
    world: &mut World<'m>,
    values: &mut Vec<Bits>,
    xs: &mut Vec<Bits>,
) -> Result<Option<Stop>, AllocError>
    requires linked { Linked program.now }
    requires addressed { IsAddressed program.now.module.now addresses.now }
    ensures { IfOk result (λ r. let m = program.now.module.now in
        moment m top.new below.new.items (world_of world.new) r
        ≡ definition.step m (frame_of m top.old) (waits_of m below.old.items) (world_of world.old)) }
{
    let rest = top.rest;
    let Some((line, rest)) = rest.split_first() else {
        return Ok(Some(Stop::Stuck));
    };
    top.rest = rest;
    act(
        alloc, program, addresses, top, below, world, line, values, xs,
    )
}

/// Makes so many steps from a frame with none below it, or fewer where the run is over before. The frames that wait
/// stand in a list of their own.
fn run_steps<'m>(
    alloc: Global,
    program: &Program<'m>,
    addresses: &Addresses<'m>,
    top: &mut Frame<'m>,
    world: &mut World<'m>,
    steps: u64,
) -> Result<Stop, AllocError>
    requires linked { Linked program.now }
    requires addressed { IsAddressed program.now.module.now addresses.now }
    ensures { IfOk result (λ stop. let m = program.now.module.now in shows (world_of world.new) (stop_of stop)
        ≡ run m steps (On (frame_of m top.old) [] (world_of world.old))) }
{
    let mut below = Vec::new(alloc);
    let mut values = Vec::new(alloc);
    let mut xs = Vec::new(alloc);
    'steps: for made in 0..steps {
        let moved = step(
            alloc,
            program,
            addresses,
            top,
            &mut below,
            world,
            &mut values,
            &mut xs,
        )?;
        match moved {
            None => {}
            Some(stop) => return Ok(stop),
        }
    }
    Ok(Stop::At(End::Going))
}

/// What a run leaves, and why it stops.
#[derive(Drop)]
pub struct Run<'m> {
    pub world: World<'m>,
    pub stop: Stop,
}

/// Runs the function at a place for so many steps, or fewer where the run is over before.
pub fn run_function<'m>(
    alloc: Global,
    program: &Program<'m>,
    addresses: &Addresses<'m>,
    at: usize,
    args: &[Bits],
    replies: &'m [Reply],
    memory: Memory,
    steps: u64,
) -> Result<Run<'m>, AllocError>
    requires linked { Linked program.now }
    requires addressed { IsAddressed program.now.module.now addresses.now }
    requires there { at < length program.now.module.now }
    ensures { IfOk result (λ done. let m = program.now.module.now in shows (world_of done.world) (stop_of done.stop)
        ≡ run m steps (first (found_at m (Some at)) (data_of_all args.now)
        (record { memory = memory; replies = map reply_of replies.now; events = [] }))) }
{
    let mut world = World {
        memory,
        replies,
        events: Vec::new(alloc),
    };
    let Some(mut top) = begin(alloc, program, at, args, Vec::new(alloc))? else {
        return Ok(Run {
            world,
            stop: Stop::Stuck,
        });
    };
    let stop = run_steps(alloc, program, addresses, &mut top, &mut world, steps)?;
    Ok(Run { world, stop })
}
