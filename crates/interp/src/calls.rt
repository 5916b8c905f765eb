//! Calls of functions of the module, and returns.
ghost use Rattle.std.specs.Prelude.{◌≡◌, ◌∷◌, [], Some, IfOk, List};
ghost use Rattle.clk_num.specs.Views.{data_of_all};
ghost use Rattle.ir_core.specs.Edits.{first_number};
ghost use Rattle.ir_core.specs.Viewed.{line_of, instruction_of};
ghost use Rattle.ir_semantics.specs.Values.{join};
ghost use Rattle.ir_semantics.specs.Machine.{World as RunWorld, On, Stuck};
ghost use Rattle.ir_semantics.specs.Effect.{ByName};
ghost use Rattle.ir_semantics.specs.Step as step;
ghost use Rattle.interp.specs.declared.state.Wait.{Wait as DeclaredWait};
ghost use Rattle.interp.specs.State.{function_at, frame_of, frame_if, waits_of, moment, some_if, target_of, Linked};

use crate::blocks::enter_target;
use crate::moves::bind;
use crate::outcome::End;
use crate::registers::Registers;
use crate::simple::give_results;
use crate::state::{Frame, Program, Stop, Target, Wait};
use byte_store::Slots;
use clk_num::Bits;
use debug_tags::Tag;
use ir_core::{Block, BlockCall, Func, FuncRef, Inst, InstData, List};
use std::alloc::{AllocError, Global};
use std::mem;

/// The number of the first block.
fn first_block(func: &Func) -> Option<Block>
    ensures { result ≡ first_number func.now.function.blocks }
{
    func.blocks().next()
}

/// The function at a place, at its first block. None where the run is stuck.
pub fn begin<'m>(
    alloc: Global,
    program: &Program<'m>,
    at: usize,
    args: &[Bits],
    extra: Vec<u32>,
) -> Result<Option<Frame<'m>>, AllocError>
    requires linked { Linked program.now }
    ensures { IfOk result (λ o. frame_if program.now.module.now o
        ≡ step.begin (function_at program.now.module.now at) (data_of_all args.now) extra.items) }
{
    let module = program.module;
    if at >= module.len() {
        return Ok(None);
    }
    let func = module.func(at);
    let Some(first) = first_block(func) else {
        return Ok(None);
    };
    let params = func.params(first);
    let rest = func.inst_slice(first);
    let mut values = Registers::new(alloc);
    if !bind(&mut values, params, args)? {
        return Ok(None);
    }
    let slots = Slots::new(alloc);
    Ok(Some(Frame {
        at,
        rest,
        values,
        slots,
        extra,
    }))
}

/// A frame that waited at a line gets the values of its call.
fn give<'m>(
    program: &Program<'m>,
    frame: &mut Frame<'m>,
    line: &InstData,
    values: &[Bits],
    xs: &mut Vec<Bits>,
) -> Result<Option<Stop>, AllocError>
    requires linked { Linked program.now }
    ensures { IfOk result (λ r. (below : List DeclaredWait) (w : RunWorld)
        → moment program.now.module.now frame.new below w r
        ≡ step.give_to (instruction_of line.now.inst) line.now.results (data_of_all values.now)
        (frame_of program.now.module.now frame.old) (waits_of program.now.module.now below) w) }
{
    match &line.inst {
        Inst::Call { .. } => give_results(frame, line, values),
        Inst::CallIndirect { .. } => give_results(frame, line, values),
        Inst::TryCall { normal, .. } => give_target(program, frame, normal.get(), values, xs),
        Inst::TryCallIndirect { normal, .. } => give_target(
            program,
            frame,
            normal.get(),
            values,
            xs,
        ),
        _ => Ok(Some(Stop::Stuck)),
    }
}

/// Enters the normal target of a call with its values.
fn give_target<'m>(
    program: &Program<'m>,
    frame: &mut Frame<'m>,
    normal: &BlockCall,
    values: &[Bits],
    xs: &mut Vec<Bits>,
) -> Result<Option<Stop>, AllocError>
    requires linked { Linked program.now }
    ensures { IfOk result (λ r. (below : List DeclaredWait) (w : RunWorld)
        → moment program.now.module.now frame.new below w r
        ≡ step.enter_target (frame_of program.now.module.now frame.old) normal.now (data_of_all values.now) []
        (waits_of program.now.module.now below) w) }
{
    if enter_target(program, frame, normal, values, &[], xs)? {
        Ok(None)
    } else {
        Ok(Some(Stop::Stuck))
    }
}

/// The frame that waits next gets the values, or the run has returned.
pub fn resume<'m>(
    alloc: Global,
    program: &Program<'m>,
    top: &mut Frame<'m>,
    below: &mut Vec<Wait<'m>>,
    values: &[Bits],
    xs: &mut Vec<Bits>,
) -> Result<Option<Stop>, AllocError>
    requires linked { Linked program.now }
    ensures { IfOk result (λ r. (w : RunWorld) → moment program.now.module.now top.new below.new.items w r
        ≡ step.resume (data_of_all values.now) (waits_of program.now.module.now below.old.items) w) }
{
    let Some(wait) = below.pop() else {
        let values = Vec::from_slice(alloc, values)?;
        return Ok(Some(Stop::At(End::Returned(List::from_vec(values)))));
    };
    *top = wait.frame;
    give(program, top, wait.line, values, xs)
}

/// A call of the function at a place, above the frame on top.
pub fn call<'m>(
    alloc: Global,
    program: &Program<'m>,
    top: &mut Frame<'m>,
    below: &mut Vec<Wait<'m>>,
    line: &'m InstData,
    at: usize,
    args: &[Bits],
) -> Result<Option<Stop>, AllocError>
    requires linked { Linked program.now }
    ensures { IfOk result (λ r. (w : RunWorld) → moment program.now.module.now top.new below.new.items w r
        ≡ step.must w (step.begin (function_at program.now.module.now at) (data_of_all args.now) []) Stuck
        (λ y. On y (record { line = line_of line.now; frame = frame_of program.now.module.now top.old }
        ∷ waits_of program.now.module.now below.old.items) w)) }
{
    let Some(frame) = begin(alloc, program, at, args, Vec::new(alloc))? else {
        return Ok(Some(Stop::Stuck));
    };
    let frame = mem::replace(top, frame);
    below.push(Wait { line, frame })?;
    Ok(None)
}

/// A call of the function at a place, in place of the frame on top. The new frame takes over the numbers in front of the
/// tags.
pub fn return_call<'m>(
    alloc: Global,
    program: &Program<'m>,
    top: &mut Frame<'m>,
    at: usize,
    args: &[Bits],
) -> Result<Option<Stop>, AllocError>
    requires linked { Linked program.now }
    ensures { IfOk result (λ r. (below : List DeclaredWait) (w : RunWorld)
        → moment program.now.module.now top.new below w r
        ≡ step.must w (step.begin (function_at program.now.module.now at) (data_of_all args.now) top.old.extra.items)
        Stuck (λ y. On y (waits_of program.now.module.now below) w)) }
{
    let extra = mem::replace(&mut top.extra, Vec::new(alloc));
    let Some(frame) = begin(alloc, program, at, args, extra)? else {
        return Ok(Some(Stop::Stuck));
    };
    *top = frame;
    Ok(None)
}

/// Appends the numbers that the tags of a tail call are. False where one of them is a slot.
pub fn add_numbers(tags: &[Tag], numbers: &mut Vec<u32>) -> Result<bool, AllocError>
    ensures { IfOk result (λ b. some_if b numbers.new.items
        ≡ join (Some numbers.old.items) (step.numbers tags.now)) }
{
    'tags: for tag in tags {
        match tag {
            Tag::User(number) => numbers.push(*number)?,
            Tag::Slot(_) => return Ok(false),
        }
    }
    Ok(true)
}

/// What a call of a callee declaration finds, in the function at a place.
pub fn find_callee<'m>(program: &Program<'m>, at: usize, callee: FuncRef) -> Target<'m>
    requires linked { Linked program.now }
    ensures { target_of program.now.module.now result
        ≡ step.found program.now.module.now (function_at program.now.module.now at) (ByName callee) }
{
    let module = program.module;
    if at >= module.len() {
        return Target::Missing;
    }
    let func = module.func(at);
    let callees = func.callees();
    let number = callee.number() as usize;
    if number >= callees.len() {
        return Target::Missing;
    }
    let callee = &callees[number];
    let sigs = func.sigs();
    let sig = callee.sig.number() as usize;
    if sig >= sigs.len() {
        return Target::Missing;
    }
    match program.links[at].callees[number] {
        Some(place) => Target::Inside(place),
        None => Target::Outside(&callee.name, &sigs[sig]),
    }
}
