//! Calls by an address, and the addresses of functions.
ghost use Rattle.std.specs.Prelude.{◌≡◌, true, false, IfOk, List};
ghost use Rattle.clk_num.specs.Views.{data_of};
ghost use Rattle.ir_core.specs.Module.{Indirect, FuncAddr};
ghost use Rattle.ir_semantics.specs.Values.{i64};
ghost use Rattle.ir_semantics.specs.Machine.{World as RunWorld};
ghost use Rattle.ir_semantics.specs.Effect.{calls};
ghost use Rattle.interp.specs.declared.state.Wait.{Wait as DeclaredWait};
ghost use Rattle.interp.specs.State.{env_of, world_of, moment, done, simply, Linked};
ghost use Rattle.interp_run.specs.Addressing.{IsAddressed};

use crate::addresses::{Addresses, address_of_callee, find_address};
use clk_num::{Bits, Width};
use interp::{
    Frame, Program, Stop, Wait, World, add_numbers, give_results, invoke, invoke_tail, read_all,
};
use ir_core::{FuncRef, InstData, SigRef, Value};
use std::alloc::{AllocError, Global};

/// An address as a value.
fn address_value(address: u64) -> Bits
    ensures { data_of result ≡ i64 address }
{
    Bits {
        width: Width::W64,
        value: u128::from(address),
    }
}

/// The result gets the address of a callee declaration.
pub fn func_addr<'m>(
    program: &Program<'m>,
    addresses: &Addresses<'m>,
    frame: &mut Frame<'m>,
    line: &InstData,
    callee: FuncRef,
) -> Result<Option<Stop>, AllocError>
    requires addressed { IsAddressed program.now.module.now addresses.now }
    ensures { IfOk result (λ r. (below : List DeclaredWait) (w : RunWorld)
        → moment program.now.module.now frame.new below w r
        ≡ done program.now.module.now frame.old below w line.now
        (simply program.now.module.now frame.old w (FuncAddr callee))) }
{
    let Some(address) = address_of_callee(program, addresses, frame.at, callee) else {
        return Ok(Some(Stop::Stuck));
    };
    give_results(frame, line, &[address_value(address)])
}

/// A call by an address, above the frame on top.
pub fn call_address<'m>(
    alloc: Global,
    program: &Program<'m>,
    addresses: &Addresses<'m>,
    top: &mut Frame<'m>,
    below: &mut Vec<Wait<'m>>,
    world: &mut World<'m>,
    line: &'m InstData,
    sig: SigRef,
    address: Value,
    args: &[Value],
    values: &mut Vec<Bits>,
    xs: &mut Vec<Bits>,
) -> Result<Option<Stop>, AllocError>
    requires linked { Linked program.now }
    requires addressed { IsAddressed program.now.module.now addresses.now }
    ensures { IfOk result (λ r. moment program.now.module.now top.new below.new.items (world_of world.new) r
        ≡ done program.now.module.now top.old below.old.items (world_of world.old) line.now
        (calls (env_of top.old.values) (Indirect sig address) args.now false)) }
{
    let Some(base) = top.values.get(address.number() as usize) else {
        return Ok(Some(Stop::Stuck));
    };
    if !read_all(&top.values, args, values)? {
        return Ok(Some(Stop::Stuck));
    }
    let target = find_address(program, addresses, top.at, sig, base.value());
    invoke(alloc, program, top, below, world, line, target, values, xs)
}

/// A call by an address, in place of the frame on top.
pub fn tail_call_address<'m>(
    alloc: Global,
    program: &Program<'m>,
    addresses: &Addresses<'m>,
    top: &mut Frame<'m>,
    below: &mut Vec<Wait<'m>>,
    world: &mut World<'m>,
    line: &'m InstData,
    sig: SigRef,
    address: Value,
    args: &[Value],
    values: &mut Vec<Bits>,
    xs: &mut Vec<Bits>,
) -> Result<Option<Stop>, AllocError>
    requires linked { Linked program.now }
    requires addressed { IsAddressed program.now.module.now addresses.now }
    ensures { IfOk result (λ r. moment program.now.module.now top.new below.new.items (world_of world.new) r
        ≡ done program.now.module.now top.old below.old.items (world_of world.old) line.now
        (calls (env_of top.old.values) (Indirect sig address) args.now true)) }
{
    let Some(base) = top.values.get(address.number() as usize) else {
        return Ok(Some(Stop::Stuck));
    };
    if !read_all(&top.values, args, values)? {
        return Ok(Some(Stop::Stuck));
    }
    let mut own = Vec::new(alloc);
    if !add_numbers(line.tags.list(), &mut own)? {
        return Ok(Some(Stop::Stuck));
    }
    let target = find_address(program, addresses, top.at, sig, base.value());
    invoke_tail(
        alloc, program, top, below, world, line, target, &own, values, xs,
    )
}
