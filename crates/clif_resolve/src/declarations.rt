//! The declarations of a function: slots, signatures and callees.
ghost use Rattle.std.specs.Prelude.{◌≡◌, ◌<◌, ◌^◌, ◌++◌, ◌∷◌, [], flat_map, length, IfOk, OnOk};
ghost use Rattle.clif_names.specs.Limits.{decl_limits};
ghost use Rattle.clif_lines.specs.WordRenaming.{renaming};
ghost use Rattle.clif_lines.specs.Keeping.{AllKeep};
ghost use Rattle.clif_meaning.specs.Meaning as spec;
ghost use Rattle.clif_lines.specs.WordNumbers.{own_sig_numbers, sig_numbers};
ghost use Rattle.clif_resolve.specs.Parts as parts;

use clif_lines::{WordNumbers, alignment, func_name, signature, slot_size};
use clif_read::{RawCalleeSig, RawDecl, RawSignature};
use ir_core::{Callee, List, Sig, SigRef, SlotDecl};
use std::alloc::{AllocError, Global};

/// How many declarations of slots there are, for room.
fn count_slots(decls: &[RawDecl]) -> usize {
    let mut count = 0usize;
    for decl in decls {
        if let RawDecl::Slot { .. } = decl {
            count = count.saturating_add(1);
        }
    }
    count
}

/// How many declarations of callees there are, for room.
fn count_callees(decls: &[RawDecl]) -> usize {
    let mut count = 0usize;
    for decl in decls {
        if let RawDecl::Callee { .. } = decl {
            count = count.saturating_add(1);
        }
    }
    count
}

/// How many signatures declarations have, for room.
fn count_sigs(decls: &[RawDecl]) -> usize {
    let mut count = 0usize;
    for decl in decls {
        count = count.saturating_add(sig_count(decl));
    }
    count
}

fn push_slot(list: &mut Vec<SlotDecl>, decl: &RawDecl) -> Result<(), AllocError>
    requires { AllKeep (decl_limits decl.now) }
    ensures { OnOk result (list.new.items ≡ list.old.items ++ spec.decl_slots decl.now) }
{
    if let RawDecl::Slot { size, align, .. } = decl {
        list.push(SlotDecl {
            size: slot_size(*size),
            align: alignment(*align),
        })?;
    }
    Ok(())
}

/// The slots, in order.
pub(crate) fn slots(alloc: Global, decls: &[RawDecl]) -> Result<List<SlotDecl>, AllocError>
    requires { AllKeep (flat_map decl_limits decls.now) }
    ensures { IfOk result (λ list. list ≡ flat_map spec.decl_slots decls.now) }
{
    let mut list = Vec::with_capacity(alloc, count_slots(decls))?;
    for decl in decls {
        push_slot(&mut list, decl)?;
    }
    Ok(List::from_vec(list))
}

/// The signatures, and the number of each that is declared.
#[derive(Drop)]
pub(crate) struct Sigs {
    pub(crate) list: Vec<Sig>,
    pub(crate) numbers: Vec<usize>,
}

impl Sigs {
    /// The signatures in the order of the declarations, those of callees among them.
    pub(crate) fn of(alloc: Global, decls: &[RawDecl]) -> Result<Sigs, AllocError>
        ensures list { IfOk result (λ sigs. sigs.list.items ≡ flat_map parts.own_sigs decls.now) }
        ensures numbers { IfOk result
            (λ sigs. sigs.numbers.items
            ≡ sig_numbers 0 decls.now ++ length (flat_map parts.own_sigs decls.now)
            ∷ []) }
    {
        let mut sigs = Sigs {
            list: Vec::with_capacity(alloc, count_sigs(decls))?,
            numbers: Vec::new(alloc),
        };
        for decl in decls {
            sigs.push_decl(alloc, decl)?;
        }
        let count = sigs.list.len();
        sigs.numbers.push(count)?;
        Ok(sigs)
    }

    fn push_decl(&mut self, alloc: Global, decl: &RawDecl) -> Result<(), AllocError>
        ensures list { OnOk result (self.new.list.items ≡ self.old.list.items ++ parts.own_sigs decl.now) }
        ensures numbers { OnOk result
            (self.new.numbers.items
            ≡ self.old.numbers.items
            ++ own_sig_numbers (length self.old.list.items) decl.now) }
    {
        match decl {
            RawDecl::Slot { .. } => Ok(()),
            RawDecl::Sig { signature, .. } => {
                self.numbers.push(self.list.len())?;
                self.push(alloc, signature.get())
            }
            RawDecl::Callee { sig, .. } => match sig {
                RawCalleeSig::Declared(_) => Ok(()),
                RawCalleeSig::Inline(signature) => self.push(alloc, signature.get()),
            },
        }
    }

    fn push(&mut self, alloc: Global, written: &RawSignature) -> Result<(), AllocError>
        ensures list { OnOk result (self.new.list.items ≡ self.old.list.items ++ spec.sig_of written.now ∷ []) }
        ensures numbers { self.new.numbers ≡ self.old.numbers }
    {
        self.list.push(signature(alloc, written)?)?;
        Ok(())
    }
}

/// Appends a declaration's callee, where `count` signatures stand before the declaration.
fn push_callee(
    list: &mut Vec<Callee>,
    words: &WordNumbers<'_>,
    count: usize,
    decl: &RawDecl,
) -> Result<(), AllocError>
    requires limits { AllKeep (decl_limits decl.now) }
    requires small { count < 2 ^ 32 }
    ensures { OnOk result
        (list.new.items ≡ list.old.items ++ spec.callees_from (renaming words.now).sig count (decl.now ∷ [])) }
{
    if let RawDecl::Callee {
        colocated,
        name,
        sig,
        ..
    } = decl
    {
        let sig = match sig {
            RawCalleeSig::Declared(sig) => words.sig(*sig),
            RawCalleeSig::Inline(_) => SigRef::new(count as u32),
        };
        list.push(Callee {
            name: func_name(name)?,
            colocated: *colocated,
            sig,
        })?;
    }
    Ok(())
}

/// How many signatures a declaration has.
fn sig_count(decl: &RawDecl) -> usize
    ensures { result ≡ length (spec.decl_sigs decl.now) }
{
    match decl {
        RawDecl::Slot { .. } => 0,
        RawDecl::Sig { .. } => 1,
        RawDecl::Callee { sig, .. } => match sig {
            RawCalleeSig::Declared(_) => 0,
            RawCalleeSig::Inline(_) => 1,
        },
    }
}

/// The callees, in order.
pub(crate) fn callees(
    alloc: Global,
    words: &WordNumbers<'_>,
    decls: &[RawDecl],
) -> Result<List<Callee>, AllocError>
    requires limits { AllKeep (flat_map decl_limits decls.now) }
    requires few { length (flat_map spec.decl_sigs decls.now) < 2 ^ 32 }
    ensures { IfOk result (λ list. list ≡ spec.callees_from (renaming words.now).sig 0 decls.now) }
{
    let mut list = Vec::with_capacity(alloc, count_callees(decls))?;
    let mut count = 0;
    for decl in decls {
        push_callee(&mut list, words, count, decl)?;
        count += sig_count(decl);
    }
    Ok(List::from_vec(list))
}
