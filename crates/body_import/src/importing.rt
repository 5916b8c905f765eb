//! What a caller needs of a callee before its body, appended to its own.
ghost use Rattle.std.specs.Prelude.{◌≡◌, ℕ, ◌+◌, ◌-◌, ◌<◌, ◌^◌, length, map, IfOk, OnOk, OnErr};
ghost use Rattle.ir_core.specs.Module.{Function};
ghost use Rattle.ir_core.specs.Lists.{Each};
ghost use Rattle.ir_core.specs.Edits.{HasRoom};
ghost use Rattle.body_import.specs.Imports.{IsImportOf};
ghost use Rattle.body_import.specs.Importing.{importing, AreMapsOf, IsPlanOf};

use crate::declarations::{Import, index_declarations, plan_import};
use ir_core::{Func, FuncRef, List, Room, SigRef, SlotDecl, Ty, Value};
use std::alloc::{AllocError, Global};

/// Where a callee's things stand in its caller.
#[derive(Drop)]
pub struct Maps {
    /// The number of the callee's first slot.
    pub slot_base: u32,
    /// The number of the callee's first value.
    pub value_base: u32,
    /// The number of each of the callee's signatures.
    pub sigs: List<SigRef>,
    /// The number of each of the callee's callee declarations.
    pub callees: List<FuncRef>,
}

/// Appends to a caller what a plan takes over from a callee, with the callee's slots and values of its types. No memory
/// is taken.
pub fn apply_import(
    caller: &mut Func,
    plan: Import,
    slots: List<SlotDecl>,
    values: List<Ty>,
) -> Maps
    requires room { HasRoom
        (record {
          slots = length slots;
          sigs = length plan.sigs.added;
          callees = length plan.callees.added;
          values = length values;
          blocks = 0;
          insts = 0;
        }) caller.old.room }
    requires few_slots { length caller.old.function.slots + length slots < 2 ^ 32 - 1 }
    requires few_sigs { length caller.old.function.sigs + length plan.sigs.added < 2 ^ 32 - 1 }
    requires few_callees { length caller.old.function.callees + length plan.callees.added < 2 ^ 32 - 1 }
    requires few_values { length caller.old.function.types + length values < 2 ^ 32 - 1 }
    requires in_range { Each (λ c. c.sig < length caller.old.function.sigs + length plan.sigs.added)
        plan.callees.added }
    ensures imported { (g : Function) → IsPlanOf caller.old.function g plan slots values
        → caller.new.function ≡ importing caller.old.function g }
    ensures maps { (g : Function) → IsPlanOf caller.old.function g plan slots values
        → AreMapsOf caller.old.function g result }
{
    let slot_base = caller.slots().len() as u32;
    let value_base = caller.values() as u32;
    let Import { sigs, callees } = plan;
    caller.append(slots, sigs.added, callees.added, values);
    Maps {
        slot_base,
        value_base,
        sigs: sigs.table,
        callees: callees.table,
    }
}

/// What a caller takes over from a callee.
fn plan_declarations(alloc: Global, caller: &Func, callee: &Func) -> Result<Import, AllocError>
    requires few_sigs { length caller.now.function.sigs + length callee.now.function.sigs < 2 ^ 32 - 1 }
    requires few_callees { length caller.now.function.callees + length callee.now.function.callees < 2 ^ 32 - 1 }
    ensures { IfOk result (λ plan. IsImportOf caller.now.function callee.now.function plan) }
{
    let index = index_declarations(alloc, caller)?;
    plan_import(alloc, &index, caller, callee)
}

/// The types of a callee's values, in the order of their numbers. Only `AllocError` refuses.
pub fn value_types(alloc: Global, callee: &Func) -> Result<List<Ty>, AllocError>
    ensures { IfOk result (λ list. list ≡ map (λ t. t.1) callee.now.function.types) }
{
    let mut list = Vec::with_capacity(alloc, callee.values())?;
    for value in 0..callee.values() {
        list.push(callee.ty(Value::new(value as u32)))?;
    }
    Ok(List::from_vec(list))
}

/// Makes room for a plan, slots and values in a caller. Only `AllocError` refuses.
fn reserve_import(
    caller: &mut Func,
    plan: &Import,
    slots: &[SlotDecl],
    values: &[Ty],
) -> Result<(), AllocError>
    ensures same { caller.new.function ≡ caller.old.function }
    ensures room { OnOk result
        (HasRoom
        (record {
          slots = length slots.now;
          sigs = length plan.now.sigs.added;
          callees = length plan.now.callees.added;
          values = length values.now;
          blocks = 0;
          insts = 0;
        }) caller.new.room) }
{
    caller.reserve(Room {
        slots: slots.len(),
        sigs: plan.sigs.added.as_slice().len(),
        callees: plan.callees.added.as_slice().len(),
        values: values.len(),
        blocks: 0,
        insts: 0,
    })
}

/// Gives a caller all that it needs of a callee before its body. The callee's slots and values stand behind the
/// caller's own. A signature or callee declaration of the callee is the caller's first equal one; where there is none,
/// it stands behind the caller's own. Three steps: what is new is planned, room is made, and it is appended. After
/// `AllocError` the caller is as before. Time: the length of the declarations of both, times the logarithm of their
/// number, and the number of the callee's values; where the caller's list of values has to grow, also that of the
/// caller's.
pub fn import(alloc: Global, caller: &mut Func, callee: &Func) -> Result<Maps, AllocError>
    requires few_slots { length caller.old.function.slots + length callee.now.function.slots < 2 ^ 32 - 1 }
    requires few_sigs { length caller.old.function.sigs + length callee.now.function.sigs < 2 ^ 32 - 1 }
    requires few_callees { length caller.old.function.callees + length callee.now.function.callees < 2 ^ 32 - 1 }
    requires few_values { length caller.old.function.types + length callee.now.function.types < 2 ^ 32 - 1 }
    ensures imported { OnOk result (caller.new.function ≡ importing caller.old.function callee.now.function) }
    ensures maps { IfOk result (λ m. AreMapsOf caller.old.function callee.now.function m) }
    ensures unchanged { OnErr result (caller.new.function ≡ caller.old.function) }
{
    let slots = List::from_vec(Vec::from_slice(alloc, callee.slots())?);
    let values = value_types(alloc, callee)?;
    let plan = plan_declarations(alloc, caller, callee)?;
    reserve_import(caller, &plan, slots.as_slice(), values.as_slice())?;
    Ok(apply_import(caller, plan, slots, values))
}
