//! Accesses of memory under the numbers of their words.
ghost use Rattle.std.specs.Prelude.{◌≡◌};
ghost use Rattle.ir_core.specs.Module.{Load, Plain, StackLoad, StackStore, Store};
ghost use Rattle.ir_core.specs.Viewed as viewed;
ghost use Rattle.clif_names.specs.declared.limits.Limit.TheVariants.{Offset};
ghost use Rattle.clif_names.specs.Limits.{maybe_number};
ghost use Rattle.clif_lines.specs.WordRenaming.{renaming};
ghost use Rattle.clif_lines.specs.Keeping.{AllKeep};
ghost use Rattle.clif_meaning.specs.Instructions as spec;
ghost use Rattle.clif_meaning.specs.Operations as operations;

use crate::narrowing::offset;
use crate::operations::{access, stored_bytes};
use crate::targets::flags;
use crate::words::WordNumbers;
use clif_insts::RawFlag;
use clif_words::Opcode;
use ir_core::{Boxed, Inst, Ty};
use token_reader::{RawName, RawNumber};

/// A load, `ty` being its type.
pub fn load(
    words: &WordNumbers<'_>,
    opcode: Opcode,
    ty: Ty,
    written: &[RawFlag],
    address: RawName,
    bytes: &Option<Boxed<RawNumber>>,
) -> Inst
    requires { AllKeep (maybe_number Offset bytes.now) }
    ensures { viewed.instruction_of result
        ≡ Plain (Load (operations.access_of opcode ty) (spec.flags_of written.now)
        (spec.value_at (renaming words.now) address) (spec.offset_of bytes.now)) }
{
    Inst::Load {
        access: access(opcode, ty),
        flags: flags(written),
        address: words.value(address),
        offset: offset(bytes),
    }
}

/// A store.
pub fn store(
    words: &WordNumbers<'_>,
    opcode: Opcode,
    written: &[RawFlag],
    value: RawName,
    address: RawName,
    bytes: &Option<Boxed<RawNumber>>,
) -> Inst
    requires { AllKeep (maybe_number Offset bytes.now) }
    ensures { viewed.instruction_of result
        ≡ Plain (Store (operations.stored_bytes opcode) (spec.flags_of written.now)
        (spec.value_at (renaming words.now) value) (spec.value_at (renaming words.now) address)
        (spec.offset_of bytes.now)) }
{
    Inst::Store {
        narrow: stored_bytes(opcode),
        flags: flags(written),
        value: words.value(value),
        address: words.value(address),
        offset: offset(bytes),
    }
}

/// A load of a slot, `ty` being its type.
pub fn stack_load(
    words: &WordNumbers<'_>,
    ty: Ty,
    slot: RawName,
    bytes: &Option<Boxed<RawNumber>>,
) -> Inst
    requires { AllKeep (maybe_number Offset bytes.now) }
    ensures { viewed.instruction_of result
        ≡ Plain (StackLoad ty ((renaming words.now).slot slot.number) (spec.offset_of bytes.now)) }
{
    Inst::StackLoad {
        ty,
        slot: words.slot(slot),
        offset: offset(bytes),
    }
}

/// A store to a slot.
pub fn stack_store(
    words: &WordNumbers<'_>,
    value: RawName,
    slot: RawName,
    bytes: &Option<Boxed<RawNumber>>,
) -> Inst
    requires { AllKeep (maybe_number Offset bytes.now) }
    ensures { viewed.instruction_of result
        ≡ Plain (StackStore (spec.value_at (renaming words.now) value)
        ((renaming words.now).slot slot.number) (spec.offset_of bytes.now)) }
{
    Inst::StackStore {
        value: words.value(value),
        slot: words.slot(slot),
        offset: offset(bytes),
    }
}
