//! Signatures taken over.
ghost use Rattle.std.specs.Prelude.{◌≡◌, ℕ, ◌+◌, ◌-◌, ◌<◌, ◌^◌, ◌++◌, ◌∷◌, [], List, length, map, ◌≤◌, Bool, IfOk};
ghost use Rattle.std.specs.Prelude.{OnOk};
ghost use Rattle.ir_semantics.specs.Import.{with_items, first_place};
ghost use Rattle.ir_core.specs.Signatures.{same_sig};
ghost use Rattle.ir_core.specs.declared.signatures.Sig.{Sig};
ghost use Rattle.body_import.specs.Keys.{Knows};
ghost use Rattle.body_import.specs.Merged.{keep};
ghost use Rattle.body_import.specs.SigKeys.{sig_key as key_of_sig};

use crate::keys::sig_key;
use crate::merging::merge_keys;
use crate::places::Places;
use ir_core::{List, Sig, SigRef};
use std::alloc::{AllocError, Global};

/// The signatures that are new in a caller, and the number that each of a callee's has there.
#[derive(Drop)]
pub struct SigImport {
    pub added: List<Sig>,
    pub table: List<SigRef>,
}

/// The keys of signatures.
fn sig_keys(alloc: Global, sigs: &[Sig]) -> Result<Vec<Vec<u32>>, AllocError>
    ensures { IfOk result (λ keys. map (λ k. k.items) keys.items ≡ map key_of_sig sigs.now) }
{
    let mut keys = Vec::new(alloc);
    for sig in sigs {
        keys.push(sig_key(alloc, sig)?)?;
    }
    Ok(keys)
}

/// Puts signatures into the index of `count` others, behind which they stand.
pub(crate) fn add_sigs(
    alloc: Global,
    places: &mut Places,
    count: u32,
    sigs: &[Sig],
) -> Result<(), AllocError>
    requires { count + length sigs.now < 2 ^ 32 - 1 }
    ensures { OnOk result ((keys : List (List ℕ)) → Knows 0 keys places.old → count ≡ length keys
        → Knows 0 (keys ++ map key_of_sig sigs.now) places.new) }
{
    let mut place = count;
    for sig in sigs {
        places.put(sig_key(alloc, sig)?, place)?;
        place += 1;
    }
    Ok(())
}

/// The index of a function's signatures.
pub fn sig_places(alloc: Global, sigs: &[Sig]) -> Result<Places, AllocError>
    requires { length sigs.now < 2 ^ 32 - 1 }
    ensures { IfOk result (λ places. Knows 0 (map key_of_sig sigs.now) places) }
{
    let mut places = Places::new(alloc);
    add_sigs(alloc, &mut places, 0, sigs)?;
    Ok(places)
}

/// Appends a copy of the signature where the flag is set.
pub(crate) fn push_sig(list: &mut Vec<Sig>, sig: &Sig, flag: bool) -> Result<(), AllocError>
    ensures { OnOk result (list.new.items ≡ list.old.items ++ keep (flag ∷ []) (sig.now ∷ [])) }
{
    if flag {
        list.push(sig.clone()?)?;
    }
    Ok(())
}

/// Copies of the signatures whose flag is set.
fn kept_sigs(alloc: Global, sigs: &[Sig], flags: &[bool]) -> Result<List<Sig>, AllocError>
    requires { length flags.now ≡ length sigs.now }
    ensures { IfOk result (λ list. list ≡ keep flags.now sigs.now) }
{
    let mut list = Vec::new(alloc);
    let mut index = 0;
    for sig in sigs {
        push_sig(&mut list, sig, flags[index])?;
        index += 1;
    }
    Ok(List::from_vec(list))
}

/// The places as numbers of signatures.
fn as_sig_refs(alloc: Global, places: &[u32]) -> Result<List<SigRef>, AllocError>
    ensures { IfOk result (λ list. list ≡ places.now) }
{
    let mut list = Vec::new(alloc);
    for place in places {
        list.push(SigRef::new(*place))?;
    }
    Ok(List::from_vec(list))
}

/// What a caller with `count` signatures, whose index is `places`, takes over of a callee's.
pub fn import_sigs(
    alloc: Global,
    places: &Places,
    count: u32,
    sigs: &[Sig],
) -> Result<SigImport, AllocError>
    requires { count + length sigs.now < 2 ^ 32 - 1 }
    ensures added { IfOk result (λ i. (own : List Sig) → Knows 0 (map key_of_sig own) places.now → count ≡ length own
        → with_items same_sig own sigs.now ≡ own ++ i.added) }
    ensures table { IfOk result (λ i. (own : List Sig) → Knows 0 (map key_of_sig own) places.now → count ≡ length own
        → i.table ≡ map (first_place same_sig (with_items same_sig own sigs.now)) sigs.now) }
    ensures as_many { IfOk result (λ i. length i.table ≡ length sigs.now) }
    ensures fewer { IfOk result (λ i. length i.added ≤ length sigs.now) }
{
    let merge = merge_keys(alloc, places, count, sig_keys(alloc, sigs)?)?;
    Ok(SigImport {
        added: kept_sigs(alloc, sigs, merge.is_new.as_slice())?,
        table: as_sig_refs(alloc, merge.places.as_slice())?,
    })
}
