//! What is taken over where there are few declarations: each is compared with the others, and no key is made.
ghost use Rattle.std.specs.Prelude.{◌≡◌, ℕ, ◌+◌, ◌-◌, ◌<◌, ◌≤◌, ◌^◌, ◌++◌, length, map, slice_get, IfOk};
ghost use Rattle.std.specs.Option.{option_copied};
ghost use Rattle.ir_core.specs.Lists.{Each};
ghost use Rattle.ir_core.specs.Signatures.{same_sig};
ghost use Rattle.ir_semantics.specs.Import.{first_place, same_sigs, same_callee};
ghost use Rattle.body_import.specs.CalleeKeys.{numbered, renumbered};
ghost use Rattle.body_import.specs.Compared.{all_sigs, IsPlaced, IsMerged};

use crate::callees::{CalleeImport, number_at, push_callee};
use crate::same::is_same_sig;
use crate::sigs::{SigImport, push_sig};
use ir_core::{Callee, FuncRef, List, Sig, SigRef};
use std::alloc::{AllocError, Global};

/// The signatures of a caller: its own, and behind them those that are added.
#[derive(Clone, Copy)]
pub(crate) struct MergedSigs<'a> {
    pub(crate) own: &'a [Sig],
    pub(crate) added: &'a [Sig],
}

impl MergedSigs<'_> {
    /// The signature of a number.
    fn get(&self, sig: SigRef) -> Option<&Sig>
        ensures { option_copied result ≡ slice_get (all_sigs self.now) sig }
    {
        let number = sig.number() as usize;
        if number < self.own.len() {
            return self.own.get(number);
        }
        self.added.get(number - self.own.len())
    }

    /// Whether two numbers are of the same signature.
    fn are_same(&self, a: SigRef, b: SigRef) -> bool
        ensures { result ≡ same_sigs (slice_get (all_sigs self.now) a) (slice_get (all_sigs self.now) b) }
    {
        if a.number() == b.number() {
            return true;
        }
        match (self.get(a), self.get(b)) {
            (Some(a), Some(b)) => is_same_sig(a, b),
            (None, None) => true,
            _ => false,
        }
    }

    /// Whether a declaration is the same as another one under this number of its signature.
    fn is_same_callee(&self, a: &Callee, b: &Callee, sig: SigRef) -> bool
        ensures { result ≡ same_callee (all_sigs self.now) a.now (numbered sig b.now) }
    {
        a.name.is(&b.name) && a.colocated == b.colocated && self.are_same(a.sig, sig)
    }

    /// The place of the first of the declarations that is the same as this one under this number of its signature.
    /// Where none is, how many there are.
    fn find_callee(&self, callees: &[Callee], callee: &Callee, sig: SigRef) -> usize
        ensures place { result ≡ first_place (same_callee (all_sigs self.now)) callees.now (numbered sig callee.now) }
        ensures within { result ≤ length callees.now }
    {
        for place in 0..callees.len() {
            if self.is_same_callee(&callees[place], callee, sig) {
                return place;
            }
        }
        callees.len()
    }

    /// The place of a declaration, under the table's number of its signature, among a caller's own and those added
    /// behind them. One that is not there is added.
    fn place_callee(
        &self,
        own: &[Callee],
        added: &mut Vec<Callee>,
        callee: &Callee,
        table: &[SigRef],
    ) -> Result<u32, AllocError>
        requires few { length own.now + length added.old.items < 2 ^ 32 }
        requires in_range { callee.now.sig < length table.now }
        ensures { IfOk result (IsPlaced (same_callee (all_sigs self.now)) own.now added.old.items added.new.items
            (renumbered table.now callee.now)) }
    {
        let sig = number_at(table, callee.sig);
        let place = self.find_callee(own, callee, sig);
        if place < own.len() {
            return Ok(place as u32);
        }
        let behind = self.find_callee(added.as_slice(), callee, sig);
        push_callee(added, callee, table, behind == added.len())?;
        Ok((place + behind) as u32)
    }
}

/// The place of the first of the signatures that is the same as this one. Where none is, how many there are.
fn find_sig(sigs: &[Sig], sig: &Sig) -> usize
    ensures place { result ≡ first_place same_sig sigs.now sig.now }
    ensures within { result ≤ length sigs.now }
{
    for place in 0..sigs.len() {
        if is_same_sig(&sigs[place], sig) {
            return place;
        }
    }
    sigs.len()
}

/// The place of a signature among a caller's own and those added behind them. One that is not there is added.
fn place_sig(own: &[Sig], added: &mut Vec<Sig>, sig: &Sig) -> Result<u32, AllocError>
    requires { length own.now + length added.old.items < 2 ^ 32 }
    ensures { IfOk result (IsPlaced same_sig own.now added.old.items added.new.items sig.now) }
{
    let place = find_sig(own, sig);
    if place < own.len() {
        return Ok(place as u32);
    }
    let behind = find_sig(added.as_slice(), sig);
    push_sig(added, sig, behind == added.len())?;
    Ok((place + behind) as u32)
}

/// What a caller with few signatures takes over of a callee's few.
pub(crate) fn import_few_sigs(
    alloc: Global,
    own: &[Sig],
    sigs: &[Sig],
) -> Result<SigImport, AllocError>
    requires { length own.now + length sigs.now < 2 ^ 32 - 1 }
    ensures { IfOk result (λ i. IsMerged same_sig own.now sigs.now i.added i.table) }
{
    let mut added = Vec::new(alloc);
    let mut table = Vec::with_capacity(alloc, sigs.len())?;
    for sig in sigs {
        let place = place_sig(own, &mut added, sig)?;
        table.push(SigRef::new(place))?;
    }
    Ok(SigImport {
        added: List::from_vec(added),
        table: List::from_vec(table),
    })
}

/// What a caller with few declarations and these signatures takes over of a callee's few, whose signatures have the
/// numbers of the table in the caller.
pub(crate) fn import_few_callees(
    alloc: Global,
    sigs: &MergedSigs<'_>,
    own: &[Callee],
    callees: &[Callee],
    table: &[SigRef],
) -> Result<CalleeImport, AllocError>
    requires few { length own.now + length callees.now < 2 ^ 32 - 1 }
    requires in_range { Each (λ c. c.sig < length table.now) callees.now }
    ensures { IfOk result (λ i. IsMerged (same_callee (all_sigs sigs.now)) own.now
        (map (renumbered table.now) callees.now) i.added i.table) }
{
    let mut added = Vec::new(alloc);
    let mut places = Vec::with_capacity(alloc, callees.len())?;
    for callee in callees {
        let place = sigs.place_callee(own, &mut added, callee, table)?;
        places.push(FuncRef::new(place))?;
    }
    Ok(CalleeImport {
        added: List::from_vec(added),
        table: List::from_vec(places),
    })
}
