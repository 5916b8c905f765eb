//! The index of a caller's declarations when more stand behind them.
ghost use Rattle.std.specs.Prelude.{◌≡◌, ℕ, ◌+◌, ◌-◌, ◌<◌, ◌^◌, ◌++◌, List, length, map, OnOk};
ghost use Rattle.body_import.specs.Keys.{Knows};
ghost use Rattle.body_import.specs.CalleeKeys.{own_key};
ghost use Rattle.body_import.specs.Imports.{IsIndexOf, IsKeyedOf, CanExtend, with_declarations};

use crate::callees::callee_key;
use crate::declarations::{Index, Keyed, are_few, key_declarations};
use crate::places::Places;
use crate::sigs::add_sigs;
use ir_core::{Callee, Func, Sig};
use std::alloc::{AllocError, Global};

/// Puts declarations, each with the first place of its signature, into the index of `count` others, behind which they
/// stand.
fn add_callees(
    alloc: Global,
    places: &mut Places,
    count: u32,
    callees: &[Callee],
) -> Result<(), AllocError>
    requires { count + length callees.now < 2 ^ 32 - 1 }
    ensures { OnOk result ((keys : List (List ℕ)) → Knows 0 keys places.old → count ≡ length keys
        → Knows 0 (keys ++ map own_key callees.now) places.new) }
{
    let mut place = count;
    for callee in callees {
        let key = callee_key(alloc, callee, callee.sig.number())?;
        places.put(key, place)?;
        place += 1;
    }
    Ok(())
}

/// Puts further declarations into the places of a function's own, behind which they stand.
fn extend_keyed(
    alloc: Global,
    keyed: &mut Keyed,
    func: &Func,
    sigs: &[Sig],
    callees: &[Callee],
) -> Result<(), AllocError>
    requires few_sigs { length func.now.function.sigs + length sigs.now < 2 ^ 32 - 1 }
    requires few_callees { length func.now.function.callees + length callees.now < 2 ^ 32 - 1 }
    ensures { OnOk result (IsKeyedOf func.now.function keyed.old → CanExtend func.now.function sigs.now callees.now
        → IsKeyedOf (with_declarations func.now.function sigs.now callees.now) keyed.new) }
{
    add_sigs(alloc, &mut keyed.sigs, func.sigs().len() as u32, sigs)?;
    add_callees(
        alloc,
        &mut keyed.callees,
        func.callees().len() as u32,
        callees,
    )?;
    Ok(())
}

/// Puts the further declarations of a caller into its index; the function is the caller without them. Time is their
/// length, times the logarithm of the number of the caller's: the caller's own are gone over only once, when they are
/// no longer few with the further ones. After `AllocError` it need not be the index of a function.
pub fn extend_index(
    alloc: Global,
    index: &mut Index,
    func: &Func,
    sigs: &[Sig],
    callees: &[Callee],
) -> Result<(), AllocError>
    requires few_sigs { length func.now.function.sigs + length sigs.now < 2 ^ 32 - 1 }
    requires few_callees { length func.now.function.callees + length callees.now < 2 ^ 32 - 1 }
    ensures { OnOk result (IsIndexOf func.now.function index.old → CanExtend func.now.function sigs.now callees.now
        → IsIndexOf (with_declarations func.now.function sigs.now callees.now) index.new) }
{
    if let Some(keyed) = &mut index.keyed {
        return extend_keyed(alloc, keyed, func, sigs, callees);
    }
    let sig_count = func.sigs().len() + sigs.len();
    let callee_count = func.callees().len() + callees.len();
    if are_few(sig_count, callee_count) {
        return Ok(());
    }
    let mut keyed = key_declarations(alloc, func)?;
    extend_keyed(alloc, &mut keyed, func, sigs, callees)?;
    index.keyed = Some(keyed);
    Ok(())
}
