//! Lines of a callee's body.
ghost use Rattle.std.specs.Prelude.{◌≡◌, ◌∷◌, [], ◌++◌, map, IfOk, OnOk};
ghost use Rattle.ir_core.specs.Lists.{Each};
ghost use Rattle.ir_semantics.specs.Renaming.{tag_under};
ghost use Rattle.ir_core.specs.Viewed.{instruction_of, line_of};
ghost use Rattle.inline_body.specs.Named.{names_of, Moves, Reached};
ghost use Rattle.ir_core.specs.Uses.{slots_shown};
ghost use Rattle.inline_body.specs.Inlined.{takes_tags as spec_takes_tags, copied_tags, copied_line, jump_line};
ghost use Rattle.inline_body.specs.Inlined.{inlined_line, inlined_lines, call_in_place};

use crate::copies::{copy_inst, copy_tags};
use crate::names::Names;
use crate::numbers::args_of_values;
use debug_tags::Tags;
use ir_core::{Block, BlockCall, Inst, InstData, List, Value, Values};
use std::alloc::{AllocError, Global};

/// Whether the instruction is a call or a `sequence_point`.
fn takes_tags(inst: &Inst) -> bool
    ensures { result ≡ spec_takes_tags (instruction_of inst.now) }
{
    match inst {
        Inst::SequencePoint => true,
        Inst::Call { .. } => true,
        Inst::ReturnCall { .. } => true,
        Inst::TryCall { .. } => true,
        Inst::CallIndirect { .. } => true,
        Inst::ReturnCallIndirect { .. } => true,
        Inst::TryCallIndirect { .. } => true,
        _ => false,
    }
}

/// The tags of a line.
fn copy_line_tags(
    alloc: Global,
    names: &Names,
    outer: &Tags,
    line: &InstData,
) -> Result<Tags, AllocError>
    requires { Each (Moves names.now.slots) (slots_shown line.now.tags) }
    ensures { IfOk result (λ t. t ≡ copied_tags names.now outer.now (instruction_of line.now.inst) line.now.tags) }
{
    if takes_tags(&line.inst) {
        return copy_tags(alloc, names, outer, &line.tags);
    }
    let none = Tags::new(Vec::new(alloc));
    copy_tags(alloc, names, &none, &line.tags)
}

/// The line under its numbers, with the site's tags where it takes tags.
pub fn copy_line(
    alloc: Global,
    names: &Names,
    outer: &Tags,
    line: &InstData,
) -> Result<InstData, AllocError>
    requires { Reached names.now (line_of line.now) }
    ensures { IfOk result (λ l. line_of l ≡ copied_line names.now outer.now (line_of line.now)) }
{
    let results = names.of_values(alloc, &line.results)?;
    let tags = copy_line_tags(alloc, names, outer, line)?;
    Ok(InstData {
        inst: copy_inst(alloc, names, line)?,
        ty: line.ty,
        results,
        tags,
    })
}

/// A jump with values.
pub fn jump(alloc: Global, block: Block, values: &[Value]) -> Result<InstData, AllocError>
    ensures { IfOk result (λ l. line_of l ≡ jump_line block values.now) }
{
    let args = args_of_values(alloc, values)?;
    Ok(InstData {
        inst: Inst::Jump(BlockCall { block, args }),
        ty: None,
        results: Values::none(),
        tags: Tags::new(Vec::new(alloc)),
    })
}

/// A line of the callee with another instruction and results, and with these tags in front of its own.
pub fn line_with(
    alloc: Global,
    names: &Names,
    outer: &Tags,
    line: &InstData,
    inst: Inst,
    results: Values,
) -> Result<InstData, AllocError>
    requires { Each (Moves names.now.slots) (slots_shown line.now.tags) }
    ensures { IfOk result
        (λ l. line_of l
        ≡ record {
          inst = instruction_of inst;
          ty = line.now.ty;
          results = results;
          tags = outer.now
              ++ map (tag_under (names_of names.now)) line.now.tags;
        }) }
{
    match copy_tags(alloc, names, outer, &line.tags) {
        Ok(tags) => Ok(InstData {
            inst,
            ty: line.ty,
            results,
            tags,
        }),
        Err(error) => {
            drop(inst);
            Err(error)
        }
    }
}

/// Appends a copy of a line.
fn push_copy(
    alloc: Global,
    names: &Names,
    outer: &Tags,
    line: &InstData,
    list: &mut Vec<InstData>,
) -> Result<(), AllocError>
    requires { Reached names.now (line_of line.now) }
    ensures { OnOk result (map line_of list.new.items ≡ map line_of list.old.items
        ++ copied_line names.now outer.now (line_of line.now) ∷ []) }
{
    let Ok(copied) = copy_line(alloc, names, outer, line) else {
        return Err(AllocError);
    };
    list.push(copied)?;
    Ok(())
}

/// Appends a jump with the values that the callee returns.
fn push_return(
    alloc: Global,
    names: &Names,
    after: Block,
    values: &Values,
    list: &mut Vec<InstData>,
) -> Result<(), AllocError>
    requires { Each (Moves names.now.values) values.now }
    ensures { OnOk result (map line_of list.new.items ≡ map line_of list.old.items
        ++ jump_line after (map (names_of names.now).value values.now) ∷ []) }
{
    let values = names.of_values(alloc, values)?;
    list.push(jump(alloc, after, values.as_slice())?)?;
    Ok(())
}

/// Appends a call in the place of a tail call, and a jump with its results.
fn push_call(
    alloc: Global,
    names: &Names,
    outer: &Tags,
    after: Block,
    results: &Values,
    line: &InstData,
    inst: Inst,
    list: &mut Vec<InstData>,
) -> Result<(), AllocError>
    requires { Each (Moves names.now.slots) (slots_shown line.now.tags) }
    ensures { OnOk result (map line_of list.new.items ≡ map line_of list.old.items
        ++ (record {
          inst = instruction_of inst;
          ty = line.now.ty;
          results = results.now;
          tags = outer.now ++ map (tag_under (names_of names.now)) line.now.tags;
        }) ∷ jump_line after results.now ∷ []) }
{
    let call = match results.clone() {
        Ok(results) => line_with(alloc, names, outer, line, inst, results)?,
        Err(error) => {
            drop(inst);
            return Err(error);
        }
    };
    list.push(call)?;
    list.push(jump(alloc, after, results.as_slice())?)?;
    Ok(())
}

/// Appends what a line becomes.
fn push_inlined(
    alloc: Global,
    names: &Names,
    outer: &Tags,
    after: Block,
    results: &Values,
    line: &InstData,
    list: &mut Vec<InstData>,
) -> Result<(), AllocError>
    requires { Reached names.now (line_of line.now) }
    ensures { OnOk result (map line_of list.new.items ≡ map line_of list.old.items
        ++ inlined_line names.now outer.now after results.now (line_of line.now) (instruction_of line.now.inst)) }
{
    match &line.inst {
        Inst::Return(values) => push_return(alloc, names, after, values, list),
        Inst::ReturnCall { callee, args } => {
            let inst = Inst::Call {
                callee: names.callee(*callee),
                args: names.of_values(alloc, args)?,
            };
            push_call(alloc, names, outer, after, results, line, inst, list)
        }
        Inst::ReturnCallIndirect { sig, address, args } => {
            let inst = Inst::CallIndirect {
                sig: names.sig(*sig),
                address: names.value(*address),
                args: names.of_values(alloc, args)?,
            };
            push_call(alloc, names, outer, after, results, line, inst, list)
        }
        _ => push_copy(alloc, names, outer, line, list),
    }
}

/// What the lines of a block become.
pub fn inline_lines(
    alloc: Global,
    names: &Names,
    outer: &Tags,
    after: Block,
    results: &Values,
    lines: &[InstData],
) -> Result<List<InstData>, AllocError>
    requires { Each (Reached names.now) (map line_of lines.now) }
    ensures { IfOk result
        (λ list. map line_of list ≡ inlined_lines names.now outer.now after results.now (map line_of lines.now)) }
{
    let mut list = Vec::with_capacity(alloc, lines.len().saturating_add(1))?;
    for line in lines {
        push_inlined(alloc, names, outer, after, results, line, &mut list)?;
    }
    Ok(List::from_vec(list))
}

/// The lines of a block under their numbers: what they become at a tail call.
pub fn copy_lines(
    alloc: Global,
    names: &Names,
    outer: &Tags,
    lines: &[InstData],
) -> Result<List<InstData>, AllocError>
    requires { Each (Reached names.now) (map line_of lines.now) }
    ensures { IfOk result (λ list. map line_of list ≡ map (copied_line names.now outer.now) (map line_of lines.now)) }
{
    let mut list = Vec::with_capacity(alloc, lines.len())?;
    for line in lines {
        list.push(copy_line(alloc, names, outer, line)?)?;
    }
    Ok(List::from_vec(list))
}
