//! Slots of frames.
ghost use Rattle.std.specs.Prelude.{◌≡◌, ◌≤◌, IfOk, List};
ghost use Rattle.ir_core.specs.Module.{StackLoad, StackStore};
ghost use Rattle.ir_semantics.specs.Values.{bytes_in, slot_place};
ghost use Rattle.ir_semantics.specs.Machine.{World as RunWorld};
ghost use Rattle.interp.specs.declared.state.Wait.{Wait as DeclaredWait};
ghost use Rattle.interp.specs.State.{function_at, moment, done, simply};

use crate::outcome::End;
use crate::shows::slot_size;
use crate::simple::give_results;
use crate::state::{Frame, Program, Stop};
use byte_store::Unwritten;
use clk_num::{Bits, Width};
use ir_core::{InstData, Slot, Ty, Value};
use std::alloc::AllocError;

/// The number of bytes of a width.
pub fn bytes_in(width: Width) -> u32
    ensures is { result ≡ bytes_in width }
    ensures few { result ≤ 16 }
{
    match width {
        Width::W8 => 1,
        Width::W16 => 2,
        Width::W32 => 4,
        Width::W64 => 8,
        Width::W128 => 16,
    }
}

/// An offset of so many bytes that lie in a slot of the function at a place.
fn slot_place(program: &Program, at: usize, slot: Slot, offset: i32, bytes: u32) -> Option<u32>
    ensures { result ≡ slot_place (function_at program.now.module.now at) slot offset bytes }
{
    let Some(size) = slot_size(program, at, slot) else {
        return None;
    };
    if offset < 0 {
        return None;
    }
    let place = offset as u32;
    if u64::from(place) + u64::from(bytes) <= u64::from(size) {
        Some(place)
    } else {
        None
    }
}

/// Reads a value from a slot.
pub fn stack_load<'m>(
    program: &Program<'m>,
    frame: &mut Frame<'m>,
    line: &InstData,
    ty: Ty,
    slot: Slot,
    offset: i32,
) -> Result<Option<Stop>, AllocError>
    ensures { IfOk result (λ r. (below : List DeclaredWait) (w : RunWorld)
        → moment program.now.module.now frame.new below w r
        ≡ done program.now.module.now frame.old below w line.now
        (simply program.now.module.now frame.old w (StackLoad ty slot offset))) }
{
    let width = ty.width();
    let bytes = bytes_in(width);
    let Some(place) = slot_place(program, frame.at, slot, offset, bytes) else {
        return Ok(Some(Stop::Stuck));
    };
    match frame.slots.read(slot.number(), place, bytes) {
        Err(Unwritten) => Ok(Some(Stop::At(End::Unwritten))),
        Ok(number) => {
            let moved = give_results(frame, line, &[Bits::new(width, number)])?;
            Ok(moved)
        }
    }
}

/// Writes a value into a slot.
pub fn stack_store<'m>(
    program: &Program<'m>,
    frame: &mut Frame<'m>,
    line: &InstData,
    value: Value,
    slot: Slot,
    offset: i32,
) -> Result<Option<Stop>, AllocError>
    ensures { IfOk result (λ r. (below : List DeclaredWait) (w : RunWorld)
        → moment program.now.module.now frame.new below w r
        ≡ done program.now.module.now frame.old below w line.now
        (simply program.now.module.now frame.old w (StackStore value slot offset))) }
{
    let Some(y) = frame.values.get(value.number() as usize) else {
        return Ok(Some(Stop::Stuck));
    };
    let bytes = bytes_in(y.width());
    let Some(place) = slot_place(program, frame.at, slot, offset, bytes) else {
        return Ok(Some(Stop::Stuck));
    };
    frame.slots.write(slot.number(), place, bytes, y.value())?;
    let moved = give_results(frame, line, &[])?;
    Ok(moved)
}
