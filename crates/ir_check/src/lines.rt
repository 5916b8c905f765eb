//! The first rule that an instruction does not keep.
ghost use Rattle.std.specs.Prelude.{◌≡◌};
ghost use Rattle.ir_core.specs.Sound.{IsSound, LineInRange, counts_of};
ghost use Rattle.ir_core.specs.Viewed.{line_of};
ghost use Rattle.ir_check.specs.Faults.{first_rules};
ghost use Rattle.ir_check.specs.Kinds.{rule_named, failing_rule, line_keeps};

use crate::counts::keeps_counts;
use crate::kinds::CheckKind;
use crate::rules::{
    ends_rightly, keeps_convention, leaves_entry, places_tags, states_signature, stays_in_slot,
};
use crate::typing::keeps_types;
use ir_core::{Block, Func, InstData};
use sig_numbers::FuncSigs;

/// The first rule but availability that an instruction does not keep. `first` is the function's first block.
pub fn find_line_fault(
    func: &Func,
    sigs: &FuncSigs<'_>,
    first: Block,
    added: &InstData,
    is_last: bool,
) -> Option<CheckKind>
    requires sound { IsSound func.now.function }
    requires same { sigs.now ≡ func.now.function }
    requires line { LineInRange (counts_of func.now.function) (line_of added.now) }
    ensures { rule_named result
        ≡ failing_rule (line_keeps func.now.function first is_last (line_of added.now)) first_rules }
{
    if !ends_rightly(&added.inst, is_last) {
        return Some(CheckKind::NoTerminator);
    }
    if !leaves_entry(first, &added.inst) {
        return Some(CheckKind::EntryTarget);
    }
    if !keeps_counts(func, added) {
        return Some(CheckKind::CountMismatch);
    }
    if !keeps_types(func, sigs, added) {
        return Some(CheckKind::TypeMismatch);
    }
    if !keeps_convention(func, added) {
        return Some(CheckKind::Convention);
    }
    if !states_signature(func, sigs, added) {
        return Some(CheckKind::SignatureMismatch);
    }
    if !stays_in_slot(func, added) {
        return Some(CheckKind::SlotRange);
    }
    if !places_tags(added) {
        return Some(CheckKind::TagPlace);
    }
    None
}
