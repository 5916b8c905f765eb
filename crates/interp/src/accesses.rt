//! Loads and stores.
ghost use Rattle.std.specs.Prelude.{◌≡◌, ◌*◌, ◌==◌, ◌||◌, true, [], IfOk, IsTrue, List};
ghost use Rattle.ir_core.specs.Module.{Module as RunModule, Load, Store};
ghost use Rattle.ir_core.specs.declared.instructions.Access.TheVariants.{Full, Uload, Sload};
ghost use Rattle.clk_num.specs.Width.{bits_of};
ghost use Rattle.ir_semantics.specs.TypeRules.{access_form, is_narrow};
ghost use Rattle.ir_semantics.specs.Values.{address_at, bytes_stored};
ghost use Rattle.interp.specs.declared.state.Wait.{Wait as DeclaredWait};
ghost use Rattle.interp.specs.State.{world_of, moment, done, simply};

use crate::outcome::End;
use crate::simple::{compute, give_results};
use crate::slots::bytes_in;
use crate::state::{Frame, Stop, World};
use byte_store::OutOfRange;
use clk_num::{Bits, Op, TrapCode, Width};
use ir_core::{Access, Flags, InstData, Ty, Value};
use std::alloc::AllocError;

/// An address plus an offset, modulo 2^64.
fn address_of(base: Bits, offset: i32) -> u64
    ensures { result ≡ address_at base.value offset }
{
    let low = Bits::new(Width::W64, base.value());
    (low.value() as u64).wrapping_add_signed(i64::from(offset))
}

/// The number of bytes that a store writes.
fn bytes_stored(narrow: Option<u8>, width: Width) -> u32
    ensures { result ≡ bytes_stored narrow width }
{
    match narrow {
        None => bytes_in(width),
        Some(bytes) => u32::from(bytes),
    }
}

/// Reads a whole value from memory.
fn load_full(
    frame: &mut Frame,
    world: &World,
    line: &InstData,
    ty: Ty,
    flags: Flags,
    address: Value,
    offset: i32,
) -> Result<Option<Stop>, AllocError>
    ensures { IfOk result (λ r. (m : RunModule) (below : List DeclaredWait)
        → let w = world_of world.now in moment m frame.new below w r
        ≡ done m frame.old below w line.now (simply m frame.old w (Load (Full ty) flags address offset))) }
{
    let Some(base) = frame.values.get(address.number() as usize) else {
        return Ok(Some(Stop::Stuck));
    };
    let width = ty.width();
    let bytes = bytes_in(width);
    match world
        .memory
        .read(address_of(base, offset), bytes, flags.big)
    {
        Err(OutOfRange) => Ok(Some(Stop::At(End::Trapped(TrapCode::HeapOob)))),
        Ok(number) => give_results(frame, line, &[Bits::new(width, number)]),
    }
}

/// The width of a number of bytes that are fewer than a type has.
fn narrow_width(bytes: u8) -> Width
    ensures { (bytes == 1 || bytes == 2 || bytes == 4) ≡ true → bits_of result ≡ 8 * bytes }
{
    match bytes {
        1 => Width::W8,
        2 => Width::W16,
        _ => Width::W32,
    }
}

/// Reads fewer bytes from memory than a type has, and extends them by zeros.
fn load_by_zeros(
    frame: &mut Frame,
    world: &World,
    line: &InstData,
    ty: Ty,
    bytes: u8,
    flags: Flags,
    address: Value,
    offset: i32,
) -> Result<Option<Stop>, AllocError>
    requires { IsTrue (is_narrow bytes ty) }
    ensures { IfOk result (λ r. (m : RunModule) (below : List DeclaredWait)
        → let w = world_of world.now in moment m frame.new below w r
        ≡ done m frame.old below w line.now (simply m frame.old w (Load (Uload ty bytes) flags address offset))) }
{
    let Some(base) = frame.values.get(address.number() as usize) else {
        return Ok(Some(Stop::Stuck));
    };
    match world
        .memory
        .read(address_of(base, offset), u32::from(bytes), flags.big)
    {
        Err(OutOfRange) => Ok(Some(Stop::At(End::Trapped(TrapCode::HeapOob)))),
        Ok(number) => {
            let narrow = Bits::new(narrow_width(bytes), number);
            let moved = compute(frame, line, Op::Uextend(ty.width()), &[narrow])?;
            Ok(moved)
        }
    }
}

/// Reads fewer bytes from memory than a type has, and extends them by the sign.
fn load_by_sign(
    frame: &mut Frame,
    world: &World,
    line: &InstData,
    ty: Ty,
    bytes: u8,
    flags: Flags,
    address: Value,
    offset: i32,
) -> Result<Option<Stop>, AllocError>
    requires { IsTrue (is_narrow bytes ty) }
    ensures { IfOk result (λ r. (m : RunModule) (below : List DeclaredWait)
        → let w = world_of world.now in moment m frame.new below w r
        ≡ done m frame.old below w line.now (simply m frame.old w (Load (Sload ty bytes) flags address offset))) }
{
    let Some(base) = frame.values.get(address.number() as usize) else {
        return Ok(Some(Stop::Stuck));
    };
    match world
        .memory
        .read(address_of(base, offset), u32::from(bytes), flags.big)
    {
        Err(OutOfRange) => Ok(Some(Stop::At(End::Trapped(TrapCode::HeapOob)))),
        Ok(number) => {
            let narrow = Bits::new(narrow_width(bytes), number);
            let moved = compute(frame, line, Op::Sextend(ty.width()), &[narrow])?;
            Ok(moved)
        }
    }
}

/// Reads a value from memory.
pub fn load(
    frame: &mut Frame,
    world: &World,
    line: &InstData,
    access: Access,
    flags: Flags,
    address: Value,
    offset: i32,
) -> Result<Option<Stop>, AllocError>
    requires { IsTrue (access_form access) }
    ensures { IfOk result (λ r. (m : RunModule) (below : List DeclaredWait)
        → let w = world_of world.now in moment m frame.new below w r
        ≡ done m frame.old below w line.now (simply m frame.old w (Load access flags address offset))) }
{
    match access {
        Access::Full(ty) => load_full(frame, world, line, ty, flags, address, offset),
        Access::Uload(ty, bytes) => load_by_zeros(
            frame, world, line, ty, bytes, flags, address, offset,
        ),
        Access::Sload(ty, bytes) => load_by_sign(
            frame, world, line, ty, bytes, flags, address, offset,
        ),
    }
}

/// Writes a value to memory, on the condition that the line has no results.
pub fn store(
    frame: &Frame,
    world: &mut World,
    line: &InstData,
    narrow: Option<u8>,
    flags: Flags,
    value: Value,
    address: Value,
    offset: i32,
) -> Option<Stop>
    requires { line.now.results ≡ [] }
    ensures { (m : RunModule) (below : List DeclaredWait)
        → moment m frame.now below (world_of world.new) result
        ≡ done m frame.now below (world_of world.old) line.now
        (simply m frame.now (world_of world.old) (Store narrow flags value address offset)) }
{
    let Some(y) = frame.values.get(value.number() as usize) else {
        return Some(Stop::Stuck);
    };
    let Some(base) = frame.values.get(address.number() as usize) else {
        return Some(Stop::Stuck);
    };
    let bytes = bytes_stored(narrow, y.width());
    match world
        .memory
        .write(address_of(base, offset), bytes, flags.big, y.value())
    {
        Err(OutOfRange) => Some(Stop::At(End::Trapped(TrapCode::HeapOob))),
        Ok(()) => None,
    }
}
