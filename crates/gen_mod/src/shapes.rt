//! The four shapes of generated functions.
ghost use Rattle.std.specs.Prelude.{◌≡◌, IfOk, OnOk};
ghost use Rattle.gen_mod.specs.Shapes as spec;

use crate::lines::{brif, call, iadd, icmp_ult, iconst, returned, try_call};
use crate::names::{callee, generated_name, host_name, signature};
use ir_core::{Block, Func, FuncRef, Ty, Value};
use std::alloc::{AllocError, Global};

/// A function `%gI` without declarations and blocks.
fn begun(alloc: Global, number: u32) -> Result<Func, AllocError>
    ensures { IfOk result (λ func. func.function ≡ spec.begun number) }
{
    Func::new(alloc, generated_name(alloc, number)?, signature())
}

/// It returns its argument and a constant, added.
pub(crate) fn adding(alloc: Global, number: u32, constant: u64) -> Result<Func, AllocError>
    ensures { IfOk result (λ func. func.function ≡ spec.adding number constant) }
{
    let mut func = begun(alloc, number)?;
    fill_adding(alloc, &mut func, number, constant)?;
    Ok(func)
}

/// The parts of `adding`. Like the other functions that fill one, it is apart so that no function is let go in it where
/// memory is out.
fn fill_adding(alloc: Global, func: &mut Func, number: u32, constant: u64) -> Result<(), AllocError>
    requires begun { func.old.function ≡ spec.begun number }
    ensures { OnOk result (func.new.function ≡ spec.adding number constant) }
{
    let _ = number;
    let arg = func.declare(Ty::I64)?;
    let added = func.declare(Ty::I64)?;
    let sum = func.declare(Ty::I64)?;
    let entry = func.add_block()?;
    func.add_param(entry, arg)?;
    func.add_inst(entry, iconst(alloc, added, constant))?;
    func.add_inst(entry, iadd(alloc, sum, arg, added))?;
    func.add_inst(entry, returned(alloc, sum))?;
    Ok(())
}

/// A function with `fn0 = %gA sig0`.
fn calling(alloc: Global, number: u32, a: u32) -> Result<Func, AllocError>
    ensures { IfOk result (λ func. func.function ≡ spec.calling number a) }
{
    let mut func = begun(alloc, number)?;
    func.add_sig(signature())?;
    func.add_callee(callee(generated_name(alloc, a)?))?;
    Ok(func)
}

/// It calls one earlier function, and then another with the result.
pub(crate) fn calling_two(alloc: Global, number: u32, a: u32, b: u32) -> Result<Func, AllocError>
    ensures { IfOk result (λ func. func.function ≡ spec.calling_two number a b) }
{
    let mut func = calling(alloc, number, a)?;
    fill_calling_two(alloc, &mut func, number, a, b)?;
    Ok(func)
}

/// The second callee and the block of `calling_two`.
fn fill_calling_two(
    alloc: Global,
    func: &mut Func,
    number: u32,
    a: u32,
    b: u32,
) -> Result<(), AllocError>
    requires calling { func.old.function ≡ spec.calling number a }
    ensures { OnOk result (func.new.function ≡ spec.calling_two number a b) }
{
    let _ = (number, a);
    func.add_callee(callee(generated_name(alloc, b)?))?;
    let arg = func.declare(Ty::I64)?;
    let first = func.declare(Ty::I64)?;
    let second = func.declare(Ty::I64)?;
    let entry = func.add_block()?;
    func.add_param(entry, arg)?;
    func.add_inst(entry, call(alloc, first, FuncRef::new(0), arg))?;
    func.add_inst(entry, call(alloc, second, FuncRef::new(1), first))?;
    func.add_inst(entry, returned(alloc, second))?;
    Ok(())
}

/// It calls an earlier function, and returns what that returns or throws.
pub(crate) fn trying(alloc: Global, number: u32, a: u32) -> Result<Func, AllocError>
    ensures { IfOk result (λ func. func.function ≡ spec.trying number a) }
{
    let mut func = calling(alloc, number, a)?;
    fill_trying(alloc, &mut func, number, a)?;
    Ok(func)
}

/// The blocks of `trying`.
fn fill_trying(alloc: Global, func: &mut Func, number: u32, a: u32) -> Result<(), AllocError>
    requires calling { func.old.function ≡ spec.calling number a }
    ensures { OnOk result (func.new.function ≡ spec.trying number a) }
{
    let _ = (number, a);
    let arg = func.declare(Ty::I64)?;
    let came_back = func.declare(Ty::I64)?;
    let thrown = func.declare(Ty::I64)?;
    let entry = func.add_block()?;
    func.add_param(entry, arg)?;
    let normal = func.add_block()?;
    func.add_param(normal, came_back)?;
    let handler = func.add_block()?;
    func.add_param(handler, thrown)?;
    func.add_inst(
        entry,
        try_call(alloc, FuncRef::new(0), arg, normal, handler)?,
    )?;
    func.add_inst(normal, returned(alloc, came_back))?;
    func.add_inst(handler, returned(alloc, thrown))?;
    Ok(())
}

/// The declarations and blocks of `choosing`.
fn choosing_blocks(alloc: Global, number: u32, a: u32) -> Result<Func, AllocError>
    ensures { IfOk result (λ func. func.function ≡ spec.choosing_blocks number a) }
{
    let mut func = calling(alloc, number, a)?;
    fill_choosing_blocks(alloc, &mut func, number, a)?;
    Ok(func)
}

/// The second callee and the blocks of `choosing_blocks`.
fn fill_choosing_blocks(
    alloc: Global,
    func: &mut Func,
    number: u32,
    a: u32,
) -> Result<(), AllocError>
    requires calling { func.old.function ≡ spec.calling number a }
    ensures { OnOk result (func.new.function ≡ spec.choosing_blocks number a) }
{
    let _ = (number, a);
    func.add_callee(callee(host_name(alloc)?))?;
    let arg = func.declare(Ty::I64)?;
    func.declare(Ty::I64)?;
    func.declare(Ty::I8)?;
    func.declare(Ty::I64)?;
    func.declare(Ty::I64)?;
    let entry = func.add_block()?;
    func.add_param(entry, arg)?;
    func.add_block()?;
    func.add_block()?;
    Ok(())
}

/// It calls an earlier function where its argument is below a constant, and the host elsewhere.
pub(crate) fn choosing(
    alloc: Global,
    number: u32,
    constant: u64,
    a: u32,
) -> Result<Func, AllocError>
    ensures { IfOk result (λ func. func.function ≡ spec.choosing number constant a) }
{
    let mut func = choosing_blocks(alloc, number, a)?;
    fill_choosing(alloc, &mut func, number, constant, a)?;
    Ok(func)
}

/// The instructions of `choosing`.
fn fill_choosing(
    alloc: Global,
    func: &mut Func,
    number: u32,
    constant: u64,
    a: u32,
) -> Result<(), AllocError>
    requires blocks { func.old.function ≡ spec.choosing_blocks number a }
    ensures { OnOk result (func.new.function ≡ spec.choosing number constant a) }
{
    let _ = (number, a);
    let (entry, below, other) = (Block::new(0), Block::new(1), Block::new(2));
    let (arg, limit, test) = (Value::new(0), Value::new(1), Value::new(2));
    func.add_inst(entry, iconst(alloc, limit, constant))?;
    func.add_inst(entry, icmp_ult(alloc, test, arg, limit))?;
    func.add_inst(entry, brif(alloc, test, below, other)?)?;
    func.add_inst(below, call(alloc, Value::new(3), FuncRef::new(0), arg))?;
    func.add_inst(below, returned(alloc, Value::new(3)))?;
    func.add_inst(other, call(alloc, Value::new(4), FuncRef::new(1), arg))?;
    func.add_inst(other, returned(alloc, Value::new(4)))?;
    Ok(())
}
