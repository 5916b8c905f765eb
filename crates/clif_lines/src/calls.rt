//! Calls under the numbers of their words.
ghost use Rattle.std.specs.Prelude.{◌≡◌, flat_map, map, IfOk};
ghost use Rattle.ir_core.specs.Lists.{Each};
ghost use Rattle.ir_core.specs.Module.{Direct, Indirect, TryCall, TryDirect, TryIndirect};
ghost use Rattle.ir_core.specs.Viewed as viewed;
ghost use Rattle.clif_names.specs.Limits.{entry_limits, target_limits};
ghost use Rattle.clif_lines.specs.WordRenaming.{renaming};
ghost use Rattle.clif_lines.specs.Keeping.{AllKeep};
ghost use Rattle.clif_meaning.specs.Instructions as spec;

use crate::targets::{table, target, values};
use crate::words::WordNumbers;
use clif_insts::{RawEntry, RawTarget};
use clif_words::Opcode;
use ir_core::{Boxed, FuncRef, Inst, SigRef, Value, Values};
use std::alloc::{AllocError, Global};
use token_reader::RawName;

/// A call of a callee declaration.
pub fn call(opcode: Opcode, callee: FuncRef, args: Values) -> Inst
    ensures { viewed.instruction_of result ≡ spec.call opcode (Direct callee) args }
{
    match opcode {
        Opcode::ReturnCall | Opcode::ReturnCallIndirect => Inst::ReturnCall { callee, args },
        _ => Inst::Call { callee, args },
    }
}

/// A call of an address.
pub fn call_indirect(opcode: Opcode, sig: SigRef, address: Value, args: Values) -> Inst
    ensures { viewed.instruction_of result ≡ spec.call opcode (Indirect sig address) args }
{
    match opcode {
        Opcode::ReturnCall | Opcode::ReturnCallIndirect => {
            Inst::ReturnCallIndirect { sig, address, args }
        }
        _ => Inst::CallIndirect { sig, address, args },
    }
}

/// A call of a callee declaration with an exception table.
pub fn try_call(
    alloc: Global,
    words: &WordNumbers<'_>,
    callee: RawName,
    args: &[RawName],
    sig: RawName,
    normal: &RawTarget,
    entries: &[RawEntry],
) -> Result<Inst, AllocError>
    requires normal { AllKeep (target_limits normal.now) }
    requires tags { AllKeep (flat_map entry_limits entries.now) }
    requires targets { Each (λ t. AllKeep (target_limits t)) (map (λ e. e.target) entries.now) }
    ensures { IfOk result
        (λ made. viewed.instruction_of made
        ≡ TryCall (TryDirect ((renaming words.now).callee callee.number))
        ((renaming words.now).sig sig.number) (spec.values_at (renaming words.now) args.now)
        (spec.target_of (renaming words.now) normal.now)
        (map (spec.entry_of (renaming words.now)) entries.now)) }
{
    let args = values(alloc, words, args)?;
    let normal = target(alloc, words, normal)?;
    let table = table(alloc, words, entries)?;
    Ok(Inst::TryCall {
        callee: words.callee(callee),
        sig: words.sig(sig),
        args,
        normal: Boxed::new(alloc, normal)?,
        table: Boxed::new(alloc, table)?,
    })
}

/// A call of an address with an exception table.
pub fn try_call_indirect(
    alloc: Global,
    words: &WordNumbers<'_>,
    address: RawName,
    args: &[RawName],
    sig: RawName,
    normal: &RawTarget,
    entries: &[RawEntry],
) -> Result<Inst, AllocError>
    requires normal { AllKeep (target_limits normal.now) }
    requires tags { AllKeep (flat_map entry_limits entries.now) }
    requires targets { Each (λ t. AllKeep (target_limits t)) (map (λ e. e.target) entries.now) }
    ensures { IfOk result
        (λ made. viewed.instruction_of made
        ≡ TryCall (TryIndirect (spec.value_at (renaming words.now) address))
        ((renaming words.now).sig sig.number) (spec.values_at (renaming words.now) args.now)
        (spec.target_of (renaming words.now) normal.now)
        (map (spec.entry_of (renaming words.now)) entries.now)) }
{
    let args = values(alloc, words, args)?;
    let normal = target(alloc, words, normal)?;
    let table = table(alloc, words, entries)?;
    Ok(Inst::TryCallIndirect {
        sig: words.sig(sig),
        address: words.value(address),
        args,
        normal: Boxed::new(alloc, normal)?,
        table: Boxed::new(alloc, table)?,
    })
}
