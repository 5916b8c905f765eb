//! What host functions reply.
ghost use Rattle.std.specs.Prelude.{◌≡◌, true, length, map, IfOk};
ghost use Rattle.ir_semantics.specs.Step as step;
ghost use Rattle.host_script.specs.Script.{reply_of};
ghost use Rattle.std.specs.Option.{option_map};
ghost use Rattle.clk_num.specs.Views.{data_of, data_of_all};
ghost use Rattle.ir_core.specs.Lookup.{param_types};
ghost use Rattle.ir_semantics.specs.Values.{value_for, values_for};
ghost use Rattle.interp.specs.State.{some_if, moment, waits_of, world_of, Linked};

use crate::calls::resume;
use crate::outcome::End;
use crate::state::{Frame, Program, Stop, Wait, World};
use crate::throws::throw;
use byte_store::Memory;
use clk_num::Bits;
use host_script::Act;
use ir_core::{Param, Sig, Ty};
use std::alloc::{AllocError, Global};

/// A number as a value of a type, where it fits as signed or as unsigned.
fn fit_value(ty: Ty, number: i128) -> Option<Bits>
    ensures { option_map data_of result ≡ value_for ty number }
{
    Bits::fit(ty.width(), number)
}

/// Numbers as values of types. False where there are not as many, or one does not fit.
pub fn fit_values(
    params: &[Param],
    numbers: &[i128],
    out: &mut Vec<Bits>,
) -> Result<bool, AllocError>
    ensures { IfOk result (λ b. some_if b (data_of_all out.new.items)
        ≡ values_for (param_types params.now) numbers.now) }
{
    out.clear();
    if params.len() != numbers.len() {
        return Ok(false);
    }
    'params: for i in 0..params.len() {
        match fit_value(params[i].ty, numbers[i]) {
            None => return Ok(false),
            Some(x) => out.push(x)?,
        }
    }
    Ok(true)
}

/// Whether all writes lie in a memory of so many bytes.
fn writes_fit(writes: &[(u64, u8)], len: usize) -> bool
    ensures { result ≡ step.writes_fit writes.now len }
{
    'writes: for write in writes {
        if write.0 >= len as u64 {
            return false;
        }
    }
    true
}

/// Makes the writes, in order.
fn apply_writes(memory: &mut Memory, writes: &[(u64, u8)])
    requires { step.writes_fit writes.now (length memory.old) ≡ true }
    ensures { memory.new ≡ step.written writes.now memory.old }
{
    'writes: for write in writes {
        let _written = memory.write(write.0, 1, false, u128::from(write.1));
    }
}

/// The next reply of the script is taken: its writes are made, and it gives values, traps or throws.
pub fn reply<'m>(
    alloc: Global,
    program: &Program<'m>,
    top: &mut Frame<'m>,
    below: &mut Vec<Wait<'m>>,
    world: &mut World<'m>,
    sig: &Sig,
    values: &mut Vec<Bits>,
    xs: &mut Vec<Bits>,
) -> Result<Option<Stop>, AllocError>
    requires linked { Linked program.now }
    ensures { IfOk result (λ r. moment program.now.module.now top.new below.new.items (world_of world.new) r
        ≡ step.reply sig.now (waits_of program.now.module.now below.old.items) (world_of world.old)
        (map reply_of world.old.replies.now)) }
{
    let replies = world.replies;
    let Some((reply, rest)) = replies.split_first() else {
        return Ok(Some(Stop::At(End::ScriptEnded)));
    };
    let writes = reply.writes.as_slice();
    if !writes_fit(writes, world.memory.bytes().len()) {
        return Ok(Some(Stop::At(End::BadReply)));
    }
    match &reply.act {
        Act::Return(numbers) => {
            if !fit_values(sig.results.as_slice(), numbers.as_slice(), values)? {
                return Ok(Some(Stop::At(End::BadReply)));
            }
            world.replies = rest;
            apply_writes(&mut world.memory, writes);
            resume(alloc, program, top, below, values, xs)
        }
        Act::Trap(code) => {
            world.replies = rest;
            apply_writes(&mut world.memory, writes);
            Ok(Some(Stop::At(End::Trapped(*code))))
        }
        Act::Throw { tag, p0, p1 } => {
            world.replies = rest;
            apply_writes(&mut world.memory, writes);
            throw(program, top, below, world, *tag, *p0, *p1, xs)
        }
    }
}
