//! Lines under the numbers of their words.
ghost use Rattle.std.specs.Prelude.{◌≡◌, ◌++◌, flat_map, IfOk};
ghost use Rattle.ir_core.specs.Viewed as viewed;
ghost use Rattle.clif_names.specs.Limits.{operand_limits, tag_limits, target_limits};
ghost use Rattle.name_tables.specs.Uses.{operand_targets};
ghost use Rattle.clif_lines.specs.WordRenaming.{renaming};
ghost use Rattle.clif_lines.specs.Keeping.{AllKeep};
ghost use Rattle.clif_meaning.specs.Instructions as spec;

use crate::instructions::instruction;
use crate::targets::{tags, values};
use crate::words::WordNumbers;
use clif_insts::{RawInst, RawOperands};
use clif_names::gives_type;
use clif_read::RawTag;
use clif_words::Opcode;
use ir_core::{InstData, Ty};
use std::alloc::{AllocError, Global};
use token_reader::RawName;

/// Whether the suffix of the instruction's form may be left out.
fn may_leave_out(opcode: Opcode, operands: &RawOperands) -> bool
    ensures { result ≡ spec.may_leave_out opcode operands.now }
{
    match opcode {
        Opcode::Uextend | Opcode::Sextend | Opcode::Ireduce => false,
        Opcode::Uload32 | Opcode::Sload32 => true,
        _ => gives_type(operands).is_some(),
    }
}

/// The line of an instruction, `ty` being the instruction's type. Takes time linear in the line, but for the logarithm
/// that words with numbers far apart take; only `AllocError` refuses.
pub fn line(
    alloc: Global,
    words: &WordNumbers<'_>,
    ty: Ty,
    written: &[RawTag],
    results: &[RawName],
    inst: &RawInst,
) -> Result<InstData, AllocError>
    requires { AllKeep
        (flat_map tag_limits written.now ++ operand_limits inst.now.suffix inst.now.operands
        ++ flat_map target_limits (operand_targets inst.now.operands)) }
    ensures { IfOk result
        (λ added. viewed.line_of added ≡ spec.line_of (renaming words.now) ty written.now results.now inst.now) }
{
    let kept = match may_leave_out(inst.opcode.kind, &inst.operands) {
        true => Some(ty),
        false => None,
    };
    let results = values(alloc, words, results)?;
    let tags = tags(alloc, words, written)?;
    Ok(InstData {
        inst: instruction(alloc, words, ty, inst)?,
        ty: kept,
        results,
        tags,
    })
}
