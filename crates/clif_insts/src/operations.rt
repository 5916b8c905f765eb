//! Operations on values, and constants.

ghost use Rattle.std.specs.Prelude.{◌≢◌, ◌<◌, length, IfOk, IfErr};
ghost use Rattle.token_reader.specs.declared.stop.Stop.TheVariants.{NoMemory};
ghost use Rattle.token_reader.specs.Reading.{Gives, same};
ghost use Rattle.clif_insts.specs.Forms as spec;

use crate::codes::read_condition;
use crate::raw::{RawInst, RawOperands};
use clif_words::Class;
use token_reader::{Reader, Stop, read_number, read_opt_suffix, read_suffix};

/// `iconst.T n`
#[tactic(auto, unfolding(crate::specs::Forms::iconst_at))]
pub(crate) fn read_iconst(reader: &mut Reader<'_>) -> Result<RawInst, Stop>
    ensures is { Gives same reader.new result (spec.iconst_at reader.old) }
    ensures no_memory { IfErr result (λ e. e ≢ NoMemory) }
    ensures shorter { IfOk result (λ _. length reader.new < length reader.old) }
{
    let opcode = reader.take_opcode(Class::Iconst)?;
    let suffix = read_suffix(reader)?;
    let number = read_number(reader)?;
    Ok(RawInst {
        opcode,
        suffix: Some(suffix),
        operands: RawOperands::Number(number),
    })
}

/// `op[.T] x, y`
#[tactic(auto, unfolding(crate::specs::Forms::binary_at))]
pub(crate) fn read_binary(reader: &mut Reader<'_>) -> Result<RawInst, Stop>
    ensures is { Gives same reader.new result (spec.binary_at reader.old) }
    ensures no_memory { IfErr result (λ e. e ≢ NoMemory) }
    ensures shorter { IfOk result (λ _. length reader.new < length reader.old) }
{
    let opcode = reader.take_opcode(Class::Binary)?;
    let suffix = read_opt_suffix(reader)?;
    let x = reader.take(Class::Value)?;
    reader.take(Class::Comma)?;
    let y = reader.take(Class::Value)?;
    Ok(RawInst {
        opcode,
        suffix,
        operands: RawOperands::Binary(x, y),
    })
}

/// `op[.T] x`
#[tactic(auto, unfolding(crate::specs::Forms::unary_at))]
pub(crate) fn read_unary(reader: &mut Reader<'_>) -> Result<RawInst, Stop>
    ensures is { Gives same reader.new result (spec.unary_at reader.old) }
    ensures no_memory { IfErr result (λ e. e ≢ NoMemory) }
    ensures shorter { IfOk result (λ _. length reader.new < length reader.old) }
{
    let opcode = reader.take_opcode(Class::Unary)?;
    let suffix = read_opt_suffix(reader)?;
    let x = reader.take(Class::Value)?;
    Ok(RawInst {
        opcode,
        suffix,
        operands: RawOperands::Unary(x),
    })
}

/// `icmp[.T] cc x, y`
#[tactic(auto, unfolding(crate::specs::Forms::icmp_at))]
pub(crate) fn read_icmp(reader: &mut Reader<'_>) -> Result<RawInst, Stop>
    ensures is { Gives same reader.new result (spec.icmp_at reader.old) }
    ensures no_memory { IfErr result (λ e. e ≢ NoMemory) }
    ensures shorter { IfOk result (λ _. length reader.new < length reader.old) }
{
    let opcode = reader.take_opcode(Class::Icmp)?;
    let suffix = read_opt_suffix(reader)?;
    let condition = read_condition(reader)?;
    let x = reader.take(Class::Value)?;
    reader.take(Class::Comma)?;
    let y = reader.take(Class::Value)?;
    Ok(RawInst {
        opcode,
        suffix,
        operands: RawOperands::Compare(condition, x, y),
    })
}

/// `select[.T] c, x, y`
#[tactic(auto, unfolding(crate::specs::Forms::select_at))]
pub(crate) fn read_select(reader: &mut Reader<'_>) -> Result<RawInst, Stop>
    ensures is { Gives same reader.new result (spec.select_at reader.old) }
    ensures no_memory { IfErr result (λ e. e ≢ NoMemory) }
    ensures shorter { IfOk result (λ _. length reader.new < length reader.old) }
{
    let opcode = reader.take_opcode(Class::Select)?;
    let suffix = read_opt_suffix(reader)?;
    let x = reader.take(Class::Value)?;
    reader.take(Class::Comma)?;
    let y = reader.take(Class::Value)?;
    reader.take(Class::Comma)?;
    let z = reader.take(Class::Value)?;
    Ok(RawInst {
        opcode,
        suffix,
        operands: RawOperands::Ternary(x, y, z),
    })
}

/// `op.T x`
#[tactic(auto, unfolding(crate::specs::Forms::convert_at))]
pub(crate) fn read_convert(reader: &mut Reader<'_>) -> Result<RawInst, Stop>
    ensures is { Gives same reader.new result (spec.convert_at reader.old) }
    ensures no_memory { IfErr result (λ e. e ≢ NoMemory) }
    ensures shorter { IfOk result (λ _. length reader.new < length reader.old) }
{
    let opcode = reader.take_opcode(Class::Convert)?;
    let suffix = read_suffix(reader)?;
    let x = reader.take(Class::Value)?;
    Ok(RawInst {
        opcode,
        suffix: Some(suffix),
        operands: RawOperands::Unary(x),
    })
}

/// `op[.T] x, n`
#[tactic(auto, unfolding(crate::specs::Forms::binary_imm_at))]
pub(crate) fn read_binary_imm(reader: &mut Reader<'_>) -> Result<RawInst, Stop>
    ensures is { Gives same reader.new result (spec.binary_imm_at reader.old) }
    ensures no_memory { IfErr result (λ e. e ≢ NoMemory) }
    ensures shorter { IfOk result (λ _. length reader.new < length reader.old) }
{
    let opcode = reader.take_opcode(Class::BinaryImm)?;
    let suffix = read_opt_suffix(reader)?;
    let x = reader.take(Class::Value)?;
    reader.take(Class::Comma)?;
    let number = read_number(reader)?;
    Ok(RawInst {
        opcode,
        suffix,
        operands: RawOperands::BinaryImm(x, number),
    })
}

/// `icmp_imm[.T] cc x, n`
#[tactic(auto, unfolding(crate::specs::Forms::icmp_imm_at))]
pub(crate) fn read_icmp_imm(reader: &mut Reader<'_>) -> Result<RawInst, Stop>
    ensures is { Gives same reader.new result (spec.icmp_imm_at reader.old) }
    ensures no_memory { IfErr result (λ e. e ≢ NoMemory) }
    ensures shorter { IfOk result (λ _. length reader.new < length reader.old) }
{
    let opcode = reader.take_opcode(Class::IcmpImm)?;
    let suffix = read_opt_suffix(reader)?;
    let condition = read_condition(reader)?;
    let x = reader.take(Class::Value)?;
    reader.take(Class::Comma)?;
    let number = read_number(reader)?;
    Ok(RawInst {
        opcode,
        suffix,
        operands: RawOperands::CompareImm(condition, x, number),
    })
}
