//! The declarations of a caller, and what it takes over from a callee.
ghost use Rattle.std.specs.Prelude.{◌≡◌, ℕ, ◌+◌, ◌-◌, ◌<◌, ◌^◌, ◌&&◌, leb, List, length, map, slice_get, Some};
ghost use Rattle.std.specs.Prelude.{IfOk};
ghost use Rattle.ir_core.specs.declared.signatures.Sig.{Sig};
ghost use Rattle.ir_core.specs.Signatures.{same_sig};
ghost use Rattle.ir_semantics.specs.Import.{first_place};
ghost use Rattle.body_import.specs.Keys.{Knows};
ghost use Rattle.body_import.specs.SigKeys.{sig_key as key_of_sig};
ghost use Rattle.body_import.specs.Imports.{IsIndexOf, IsKeyedOf, IsImportOf};

use crate::callees::{CalleeImport, callee_places, import_callees};
use crate::comparing::{MergedSigs, import_few_callees, import_few_sigs};
use crate::keys::sig_key;
use crate::places::Places;
use crate::sigs::{SigImport, import_sigs, sig_places};
use ir_core::{Func, List, Sig, SigRef};
use std::alloc::{AllocError, Global};

/// The most signatures, and the most callee declarations, of a function whose declarations are compared with one
/// another.
const FEW: usize = 8;

/// Where a function's signatures and callee declarations stand. While there are few of them it has nothing and takes no
/// memory: then they are compared with one another.
#[derive(Drop)]
pub struct Index {
    pub keyed: Option<Keyed>,
}

/// For each of a function's signatures and callee declarations the first place of an equal one.
#[derive(Drop)]
pub struct Keyed {
    pub sigs: Places,
    pub callees: Places,
}

/// What a caller takes over: the declarations that it does not have, and the numbers of the callee's in it.
#[derive(Drop)]
pub struct Import {
    pub sigs: SigImport,
    pub callees: CalleeImport,
}

/// Whether so many signatures and callee declarations are compared with one another.
pub(crate) fn are_few(sigs: usize, callees: usize) -> bool
    ensures { result ≡ (leb sigs 8 && leb callees 8) }
{
    sigs <= FEW && callees <= FEW
}

/// The first place of a signature that the index has.
fn place_of_sig(alloc: Global, places: &Places, sig: &Sig) -> Result<SigRef, AllocError>
    ensures { IfOk result (λ n. (sigs : List Sig) (k : ℕ) → Knows 0 (map key_of_sig sigs) places.now
        → slice_get sigs k ≡ Some sig.now → n ≡ first_place same_sig sigs sig.now) }
{
    let key = sig_key(alloc, sig)?;
    match places.find(key.as_slice()) {
        Some(place) => Ok(SigRef::new(place)),
        None => Ok(SigRef::new(0)),
    }
}

/// The first place of each signature.
fn first_places(alloc: Global, places: &Places, sigs: &[Sig]) -> Result<List<SigRef>, AllocError>
    ensures places { IfOk result (λ list. Knows 0 (map key_of_sig sigs.now) places.now
        → list ≡ map (first_place same_sig sigs.now) sigs.now) }
    ensures as_many { IfOk result (λ list. length list ≡ length sigs.now) }
{
    let mut list = Vec::new(alloc);
    for sig in sigs {
        list.push(place_of_sig(alloc, places, sig)?)?;
    }
    Ok(List::from_vec(list))
}

/// The places of a function's declarations.
pub(crate) fn key_declarations(alloc: Global, func: &Func) -> Result<Keyed, AllocError>
    ensures { IfOk result (λ k. IsKeyedOf func.now.function k) }
{
    let _ = func.values();
    let sigs = sig_places(alloc, func.sigs())?;
    let first = first_places(alloc, &sigs, func.sigs())?;
    let callees = callee_places(alloc, func.callees(), first.as_slice())?;
    Ok(Keyed { sigs, callees })
}

/// The index of a function's declarations. Where they are few it takes no memory.
pub fn index_declarations(alloc: Global, func: &Func) -> Result<Index, AllocError>
    ensures { IfOk result (λ i. IsIndexOf func.now.function i) }
{
    if are_few(func.sigs().len(), func.callees().len()) {
        return Ok(Index { keyed: None });
    }
    let keyed = key_declarations(alloc, func)?;
    Ok(Index { keyed: Some(keyed) })
}

/// What a caller, whose places these are, takes over from a callee.
fn plan_by_keys(
    alloc: Global,
    keyed: &Keyed,
    caller: &Func,
    callee: &Func,
) -> Result<Import, AllocError>
    requires few_sigs { length caller.now.function.sigs + length callee.now.function.sigs < 2 ^ 32 - 1 }
    requires few_callees { length caller.now.function.callees + length callee.now.function.callees < 2 ^ 32 - 1 }
    requires keyed { IsKeyedOf caller.now.function keyed.now }
    ensures { IfOk result (λ i. IsImportOf caller.now.function callee.now.function i) }
{
    let _ = caller.values();
    let _ = callee.values();
    let sigs = import_sigs(
        alloc,
        &keyed.sigs,
        caller.sigs().len() as u32,
        callee.sigs(),
    )?;
    let callees = import_callees(
        alloc,
        &keyed.callees,
        caller.callees().len() as u32,
        callee.callees(),
        sigs.table.as_slice(),
    )?;
    Ok(Import { sigs, callees })
}

/// What a caller takes over from a callee, by comparing each declaration with the others.
fn plan_directly(alloc: Global, caller: &Func, callee: &Func) -> Result<Import, AllocError>
    requires few_sigs { length caller.now.function.sigs + length callee.now.function.sigs < 2 ^ 32 - 1 }
    requires few_callees { length caller.now.function.callees + length callee.now.function.callees < 2 ^ 32 - 1 }
    ensures { IfOk result (λ i. IsImportOf caller.now.function callee.now.function i) }
{
    let _ = caller.values();
    let _ = callee.values();
    let sigs = import_few_sigs(alloc, caller.sigs(), callee.sigs())?;
    let merged = MergedSigs {
        own: caller.sigs(),
        added: sigs.added.as_slice(),
    };
    let callees = import_few_callees(
        alloc,
        &merged,
        caller.callees(),
        callee.callees(),
        sigs.table.as_slice(),
    )?;
    Ok(Import { sigs, callees })
}

/// What a caller, whose index this is, takes over from a callee. Time is the length of the callee's declarations, times
/// the logarithm of the number of the caller's. Where both have few, memory is that of the result.
pub fn plan_import(
    alloc: Global,
    index: &Index,
    caller: &Func,
    callee: &Func,
) -> Result<Import, AllocError>
    requires few_sigs { length caller.now.function.sigs + length callee.now.function.sigs < 2 ^ 32 - 1 }
    requires few_callees { length caller.now.function.callees + length callee.now.function.callees < 2 ^ 32 - 1 }
    requires indexed { IsIndexOf caller.now.function index.now }
    ensures { IfOk result (λ i. IsImportOf caller.now.function callee.now.function i) }
{
    if let Some(keyed) = &index.keyed {
        return plan_by_keys(alloc, keyed, caller, callee);
    }
    if are_few(callee.sigs().len(), callee.callees().len()) {
        return plan_directly(alloc, caller, callee);
    }
    let keyed = key_declarations(alloc, caller)?;
    plan_by_keys(alloc, &keyed, caller, callee)
}
