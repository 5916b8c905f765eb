//! Exceptions.
ghost use Rattle.std.specs.Prelude.{◌≡◌, ◌+◌, ◌<◌, ◌≤◌, ◌^◌, ◌∷◌, [], IfOk, List};
ghost use Rattle.clk_num.specs.Views.{data_of};
ghost use Rattle.ir_core.specs.Viewed.{instruction_of};
ghost use Rattle.ir_semantics.specs.Values.{i64};
ghost use Rattle.ir_semantics.specs.Machine.{World as RunWorld};
ghost use Rattle.ir_semantics.specs.Step as step;
ghost use Rattle.interp.specs.declared.state.Wait.{Wait as DeclaredWait};
ghost use Rattle.interp.specs.State.{frame_of, world_of, waits_of, moment, search_of, passed, Linked};

use crate::blocks::enter_target;
use crate::outcome::{End, Event};
use crate::state::{Frame, Program, Search, Stop, Wait, World};
use clk_num::{Bits, Width};
use exn_tables::Entry;
use ir_core::{BlockCall, Inst, InstData};
use std::alloc::AllocError;

/// The first entry that takes the tag, where so many entries were passed before.
fn search_table<'m>(entries: &'m [Entry<BlockCall>], tag: u32, rank: u128) -> Search<'m>
    requires { rank + 2 ^ 64 ≤ 2 ^ 128 }
    ensures found { search_of result ≡ step.search_in entries.now tag rank }
    ensures more { passed result < rank + 2 ^ 64 }
{
    let mut count = rank;
    'entries: for entry in entries {
        if entry.takes(tag) {
            return Search::Hit(count, &entry.target);
        }
        count += 1;
    }
    Search::Missed(count)
}

/// The first entry of an instruction's table that takes the tag, where so many entries were passed before.
fn search_line<'m>(line: &'m InstData, tag: u32, rank: u128) -> Search<'m>
    requires { rank + 2 ^ 64 ≤ 2 ^ 128 }
    ensures found { search_of result ≡ step.search_in (step.table_of (instruction_of line.now.inst)) tag rank }
    ensures more { passed result < rank + 2 ^ 64 }
{
    match &line.inst {
        Inst::TryCall { table, .. } => search_table(table.get().entries(), tag, rank),
        Inst::TryCallIndirect { table, .. } => search_table(table.get().entries(), tag, rank),
        _ => Search::Missed(rank),
    }
}

/// Throws an exception outwards through the frames that wait.
pub fn throw<'m>(
    program: &Program<'m>,
    top: &mut Frame<'m>,
    below: &mut Vec<Wait<'m>>,
    world: &mut World<'m>,
    tag: u32,
    p0: u64,
    p1: u64,
    xs: &mut Vec<Bits>,
) -> Result<Option<Stop>, AllocError>
    requires linked { Linked program.now }
    ensures { IfOk result (λ r. moment program.now.module.now top.new below.new.items (world_of world.new) r
        ≡ step.throw tag p0 p1 (waits_of program.now.module.now below.old.items) 0 (world_of world.old)) }
{
    let mut rank = 0u128;
    'waits: while let Some(wait) = below.pop() {
        match search_line(wait.line, tag, rank) {
            Search::Missed(count) => rank = count,
            Search::Hit(count, target) => {
                let event = Event::Caught {
                    tag,
                    p0,
                    p1,
                    rank: count,
                };
                world.events.push(event)?;
                *top = wait.frame;
                let moved = catch(program, top, target, p0, p1, xs)?;
                return Ok(moved);
            }
        }
    }
    Ok(Some(Stop::At(End::Threw { tag, p0, p1 })))
}

/// A payload as a value.
fn word(payload: u64) -> Bits
    ensures { data_of result ≡ i64 payload }
{
    Bits {
        width: Width::W64,
        value: u128::from(payload),
    }
}

/// Enters the target of an entry that takes an exception.
fn catch<'m>(
    program: &Program<'m>,
    frame: &mut Frame<'m>,
    target: &BlockCall,
    p0: u64,
    p1: u64,
    xs: &mut Vec<Bits>,
) -> Result<Option<Stop>, AllocError>
    requires linked { Linked program.now }
    ensures { IfOk result (λ r. (below : List DeclaredWait) (w : RunWorld)
        → moment program.now.module.now frame.new below w r
        ≡ step.enter_target (frame_of program.now.module.now frame.old) target.now [] (i64 p0 ∷ i64 p1 ∷ [])
        (waits_of program.now.module.now below) w) }
{
    let payloads = [word(p0), word(p1)];
    if enter_target(program, frame, target, &[], &payloads, xs)? {
        Ok(None)
    } else {
        Ok(Some(Stop::Stuck))
    }
}
