//! Callee declarations taken over.
ghost use Rattle.std.specs.Prelude.{◌≡◌, ℕ, ◌+◌, ◌-◌, ◌<◌, ◌≤◌, ◌^◌, ◌++◌, ◌∷◌, [], List, length, map, get_or, IfOk};
ghost use Rattle.std.specs.Prelude.{OnOk, slice_get};
ghost use Rattle.ir_core.specs.Lists.{Each};
ghost use Rattle.ir_core.specs.declared.signatures.Sig.{Sig};
ghost use Rattle.ir_core.specs.declared.declarations.Callee.{Callee};
ghost use Rattle.ir_semantics.specs.Import.{with_items, same_callee, first_place};
ghost use Rattle.body_import.specs.Keys.{Knows};
ghost use Rattle.body_import.specs.Merged.{keep};
ghost use Rattle.body_import.specs.CalleeKeys.{colocated_number, name_key, callee_key as key_of_callee, key_among};
ghost use Rattle.body_import.specs.CalleeKeys.{renumbered, AreFirst};

use crate::merging::merge_keys;
use crate::places::Places;
use ir_core::{Callee, FuncName, FuncRef, List, SigRef};
use std::alloc::{AllocError, Global};

/// The callee declarations that are new in a caller, and the number that each of a callee's has there.
#[derive(Drop)]
pub struct CalleeImport {
    pub added: List<Callee>,
    pub table: List<FuncRef>,
}

/// Appends bytes as numbers.
fn push_bytes(key: &mut Vec<u32>, bytes: &[u8]) -> Result<(), AllocError>
    ensures { OnOk result (key.new.items ≡ key.old.items ++ bytes.now) }
{
    for byte in bytes {
        key.push(u32::from(*byte))?;
    }
    Ok(())
}

/// Appends the numbers of a name.
fn push_name(key: &mut Vec<u32>, name: &FuncName) -> Result<(), AllocError>
    ensures { OnOk result (key.new.items ≡ key.old.items ++ name_key name.now) }
{
    match name {
        FuncName::Text(text) => {
            key.push(0)?;
            push_bytes(key, text.as_slice())?;
            Ok(())
        }
        FuncName::User(first, second) => {
            key.push(1)?;
            key.push(*first)?;
            key.push(*second)?;
            Ok(())
        }
    }
}

/// 1 where the declaration is `colocated`, else 0.
fn number_of_colocated(colocated: bool) -> u32
    ensures { result ≡ colocated_number colocated }
{
    if colocated { 1 } else { 0 }
}

/// The numbers of a declaration whose signature stands first at `sig`.
pub(crate) fn callee_key(alloc: Global, callee: &Callee, sig: u32) -> Result<Vec<u32>, AllocError>
    ensures { IfOk result (λ key. key.items ≡ key_of_callee sig callee.now) }
{
    let length = match &callee.name {
        FuncName::Text(text) => text.as_slice().len(),
        FuncName::User(_, _) => 2,
    };
    let mut key = Vec::with_capacity(alloc, length.saturating_add(3))?;
    key.push(sig)?;
    key.push(number_of_colocated(callee.colocated))?;
    push_name(&mut key, &callee.name)?;
    Ok(key)
}

/// The number of a signature by a table.
pub(crate) fn number_at(table: &[SigRef], sig: SigRef) -> SigRef
    requires { sig < length table.now }
    ensures { result ≡ get_or table.now sig 0 }
{
    table[sig.number() as usize]
}

/// The keys of declarations by a table of the first places of their signatures.
fn callee_keys(
    alloc: Global,
    callees: &[Callee],
    table: &[SigRef],
) -> Result<Vec<Vec<u32>>, AllocError>
    requires { Each (λ c. c.sig < length table.now) callees.now }
    ensures { IfOk result
        (λ keys. map (λ k. k.items) keys.items ≡ map (λ c. key_of_callee (get_or table.now c.sig 0) c) callees.now) }
{
    let mut keys = Vec::new(alloc);
    for callee in callees {
        let sig = number_at(table, callee.sig);
        keys.push(callee_key(alloc, callee, sig.number())?)?;
    }
    Ok(keys)
}

/// The index of a function's declarations, whose signatures have these first places.
pub fn callee_places(
    alloc: Global,
    callees: &[Callee],
    first: &[SigRef],
) -> Result<Places, AllocError>
    requires few { length callees.now < 2 ^ 32 - 1 }
    requires in_range { Each (λ c. c.sig < length first.now) callees.now }
    ensures { IfOk result
        (λ places. Knows 0 (map (λ c. key_of_callee (get_or first.now c.sig 0) c) callees.now) places) }
{
    let mut places = Places::new(alloc);
    let mut place = 0;
    for callee in callees {
        let sig = number_at(first, callee.sig);
        places.put(callee_key(alloc, callee, sig.number())?, place)?;
        place += 1;
    }
    Ok(places)
}

/// The declaration under new numbers of signatures.
fn renumber_callee(callee: &Callee, table: &[SigRef]) -> Result<Callee, AllocError>
    requires { callee.now.sig < length table.now }
    ensures { IfOk result (λ c. c ≡ renumbered table.now callee.now) }
{
    Ok(Callee {
        name: callee.name.clone()?,
        colocated: callee.colocated,
        sig: number_at(table, callee.sig),
    })
}

/// Appends the declaration under new numbers where the flag is set.
pub(crate) fn push_callee(
    list: &mut Vec<Callee>,
    callee: &Callee,
    table: &[SigRef],
    flag: bool,
) -> Result<(), AllocError>
    requires { callee.now.sig < length table.now }
    ensures { OnOk result (list.new.items ≡ list.old.items ++ keep (flag ∷ []) (renumbered table.now callee.now ∷ [])) }
{
    if flag {
        list.push(renumber_callee(callee, table)?)?;
    }
    Ok(())
}

/// The declarations whose flag is set, under new numbers of signatures.
fn kept_callees(
    alloc: Global,
    callees: &[Callee],
    table: &[SigRef],
    flags: &[bool],
) -> Result<List<Callee>, AllocError>
    requires as_many { length flags.now ≡ length callees.now }
    requires in_range { Each (λ c. c.sig < length table.now) callees.now }
    ensures { IfOk result (λ list. list ≡ keep flags.now (map (renumbered table.now) callees.now)) }
{
    let mut list = Vec::new(alloc);
    let mut index = 0;
    for callee in callees {
        push_callee(&mut list, callee, table, flags[index])?;
        index += 1;
    }
    Ok(List::from_vec(list))
}

/// The places as numbers of declarations.
fn as_func_refs(alloc: Global, places: &[u32]) -> Result<List<FuncRef>, AllocError>
    ensures { IfOk result (λ list. list ≡ places.now) }
{
    let mut list = Vec::new(alloc);
    for place in places {
        list.push(FuncRef::new(*place))?;
    }
    Ok(List::from_vec(list))
}

/// What a caller with `count` declarations, whose index is `places`, takes over of a callee's, whose signatures have
/// the numbers of the table in the caller.
pub fn import_callees(
    alloc: Global,
    places: &Places,
    count: u32,
    callees: &[Callee],
    table: &[SigRef],
) -> Result<CalleeImport, AllocError>
    requires few { count + length callees.now < 2 ^ 32 - 1 }
    requires in_range { Each (λ c. c.sig < length table.now) callees.now }
    ensures added { IfOk result (λ i. (sigs : List Sig) (own : List Callee)
        → Knows 0 (map (key_among sigs) own) places.now → count ≡ length own → AreFirst sigs table.now
        → with_items (same_callee sigs) own (map (renumbered table.now) callees.now) ≡ own ++ i.added) }
    ensures table { IfOk result (λ i. (sigs : List Sig) (own : List Callee)
        → Knows 0 (map (key_among sigs) own) places.now → count ≡ length own → AreFirst sigs table.now
        → i.table
        ≡ map (first_place (same_callee sigs)
        (with_items (same_callee sigs) own (map (renumbered table.now) callees.now)))
        (map (renumbered table.now) callees.now)) }
    ensures fewer { IfOk result (λ i. length i.added ≤ length callees.now) }
{
    let merge = merge_keys(alloc, places, count, callee_keys(alloc, callees, table)?)?;
    Ok(CalleeImport {
        added: kept_callees(alloc, callees, table, merge.is_new.as_slice())?,
        table: as_func_refs(alloc, merge.places.as_slice())?,
    })
}
