//! Branches under the numbers of their words.
ghost use Rattle.std.specs.Prelude.{◌≡◌, map, IfOk};
ghost use Rattle.ir_core.specs.Lists.{Each};
ghost use Rattle.ir_core.specs.Module.{Branches, Brif, BrTable};
ghost use Rattle.ir_core.specs.Viewed as viewed;
ghost use Rattle.clif_names.specs.Limits.{target_limits};
ghost use Rattle.clif_lines.specs.WordRenaming.{renaming};
ghost use Rattle.clif_lines.specs.Keeping.{AllKeep};
ghost use Rattle.clif_meaning.specs.Instructions as spec;

use crate::targets::{target, targets};
use crate::words::WordNumbers;
use clif_insts::RawTarget;
use ir_core::{Boxed, Inst};
use std::alloc::{AllocError, Global};
use token_reader::RawName;

/// A branch by a condition, to `taken` where it is not zero.
pub fn brif(
    alloc: Global,
    words: &WordNumbers<'_>,
    cond: RawName,
    taken: &RawTarget,
    other: &RawTarget,
) -> Result<Inst, AllocError>
    requires taken { AllKeep (target_limits taken.now) }
    requires other { AllKeep (target_limits other.now) }
    ensures { IfOk result
        (λ made. viewed.instruction_of made
        ≡ Branches (Brif (spec.value_at (renaming words.now) cond)
        (spec.target_of (renaming words.now) taken.now) (spec.target_of (renaming words.now) other.now))) }
{
    let yes = target(alloc, words, taken)?;
    let no = target(alloc, words, other)?;
    Ok(Inst::Brif {
        cond: words.value(cond),
        yes: Boxed::new(alloc, yes)?,
        no: Boxed::new(alloc, no)?,
    })
}

/// A branch by an index, to `default` where it is none of the table's.
pub fn br_table(
    alloc: Global,
    words: &WordNumbers<'_>,
    index: RawName,
    default: &RawTarget,
    entries: &[RawTarget],
) -> Result<Inst, AllocError>
    requires default { AllKeep (target_limits default.now) }
    requires entries { Each (λ t. AllKeep (target_limits t)) entries.now }
    ensures { IfOk result
        (λ made. viewed.instruction_of made
        ≡ Branches (BrTable (spec.value_at (renaming words.now) index)
        (spec.target_of (renaming words.now) default.now)
        (map (spec.target_of (renaming words.now)) entries.now))) }
{
    let default = target(alloc, words, default)?;
    let entries = targets(alloc, words, entries)?;
    Ok(Inst::BrTable {
        index: words.value(index),
        default: Boxed::new(alloc, default)?,
        entries,
    })
}
