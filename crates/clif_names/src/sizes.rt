//! The size of a function as it is written.
ghost use Rattle.std.specs.Prelude.{◌≡◌, ◌+◌, length, map};
ghost use Rattle.ir_core.specs.Size.{capped, total};
ghost use Rattle.clif_names.specs.Sizes as spec;

use clif_insts::{RawEntry, RawOperands, RawTarget};
use clif_read::{RawBlock, RawCalleeSig, RawDecl, RawFunction, RawLine, RawSignature};

fn signature_size(signature: &RawSignature) -> usize
    ensures { result ≡ capped (spec.signature_size signature.now) }
{
    1usize
        .saturating_add(signature.params.as_slice().len())
        .saturating_add(signature.results.as_slice().len())
}

fn decl_size(decl: &RawDecl) -> usize
    ensures { result ≡ capped (spec.decl_size decl.now) }
{
    match decl {
        RawDecl::Slot { .. } => 1,
        RawDecl::Sig { signature, .. } => signature_size(signature.get()),
        RawDecl::Callee { sig, .. } => match sig {
            RawCalleeSig::Declared(_) => 1,
            RawCalleeSig::Inline(signature) => 1usize.saturating_add(signature_size(
                signature.get(),
            )),
        },
    }
}

fn decls_size(decls: &[RawDecl]) -> usize
    ensures { result ≡ capped (total spec.decl_size decls.now) }
{
    let mut size = 0usize;
    for decl in decls {
        size = size.saturating_add(decl_size(decl));
    }
    size
}

/// The entries of a `br_table`, each with its arguments.
fn entries_size(entries: &[RawTarget]) -> usize
    ensures { result ≡ capped (length entries.now + total spec.target_size entries.now) }
{
    let mut size = entries.len();
    for target in entries {
        size = size.saturating_add(target.args.as_slice().len());
    }
    size
}

/// The entries of an exception table, each with its arguments.
fn table_size(table: &[RawEntry]) -> usize
    ensures { result ≡ capped (length table.now + total spec.target_size (map (λ e. e.target) table.now)) }
{
    let mut size = table.len();
    for entry in table {
        size = size.saturating_add(entry.target.args.as_slice().len());
    }
    size
}

fn operands_size(operands: &RawOperands) -> usize
    ensures { result ≡ capped (spec.operands_size operands.now) }
{
    match operands {
        RawOperands::Nullary
        | RawOperands::Number(_)
        | RawOperands::StackLoad { .. }
        | RawOperands::FuncAddr(_)
        | RawOperands::Trap(_) => 0,
        RawOperands::Unary(_)
        | RawOperands::BinaryImm(_, _)
        | RawOperands::CompareImm(_, _, _)
        | RawOperands::Load { .. }
        | RawOperands::StackStore { .. }
        | RawOperands::TrapIf(_, _) => 1,
        RawOperands::Binary(_, _) | RawOperands::Compare(_, _, _) | RawOperands::Store { .. } => 2,
        RawOperands::Ternary(_, _, _) => 3,
        RawOperands::Return(args) | RawOperands::Call { args, .. } => args.as_slice().len(),
        RawOperands::Jump(target) => target.args.as_slice().len(),
        RawOperands::Brif { yes, no, .. } => 1usize
            .saturating_add(yes.get().args.as_slice().len())
            .saturating_add(no.get().args.as_slice().len()),
        RawOperands::BrTable {
            default,
            entries,
            ..
        } => 1usize
            .saturating_add(default.get().args.as_slice().len())
            .saturating_add(entries_size(entries.as_slice())),
        RawOperands::TryCall {
            args,
            normal,
            table,
            ..
        } => args
            .as_slice()
            .len()
            .saturating_add(normal.get().args.as_slice().len())
            .saturating_add(table_size(table.get().as_slice())),
        RawOperands::CallIndirect { args, .. } => 1usize.saturating_add(args.as_slice().len()),
        RawOperands::TryCallIndirect {
            args,
            normal,
            table,
            ..
        } => 1usize
            .saturating_add(args.as_slice().len())
            .saturating_add(normal.get().args.as_slice().len())
            .saturating_add(table_size(table.get().as_slice())),
    }
}

fn line_size(line: &RawLine) -> usize
    ensures { result ≡ capped (spec.line_size line.now) }
{
    match line {
        RawLine::Alias { .. } => 0,
        RawLine::Inst {
            tags,
            results,
            inst,
            ..
        } => 1usize
            .saturating_add(results.as_slice().len())
            .saturating_add(operands_size(&inst.operands))
            .saturating_add(tags.as_slice().len()),
    }
}

fn lines_size(lines: &[RawLine]) -> usize
    ensures { result ≡ capped (total spec.line_size lines.now) }
{
    let mut size = 0usize;
    for line in lines {
        size = size.saturating_add(line_size(line));
    }
    size
}

fn block_size(block: &RawBlock) -> usize
    ensures { result ≡ capped (spec.block_size block.now) }
{
    1usize
        .saturating_add(block.params.as_slice().len())
        .saturating_add(lines_size(block.lines.as_slice()))
}

fn blocks_size(blocks: &[RawBlock]) -> usize
    ensures { result ≡ capped (total spec.block_size blocks.now) }
{
    let mut size = 0usize;
    for block in blocks {
        size = size.saturating_add(block_size(block));
    }
    size
}

/// The size of a function, or the greatest number where it is greater.
pub fn function_size(func: &RawFunction) -> usize
    ensures { result ≡ capped (spec.raw_size func.now) }
{
    decls_size(func.decls.as_slice()).saturating_add(blocks_size(func.blocks.as_slice()))
}
