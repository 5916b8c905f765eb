//! The types of a function's values, in order of definition.
ghost use Rattle.std.specs.Prelude.{◌≡◌, ◌++◌, fold, flat_map, map, slice_get, IfOk, OnOk};
ghost use Rattle.ir_core.specs.Lookup.{type_in};
ghost use Rattle.name_tables.specs.Definitions.{block_steps, Line, Param};
ghost use Rattle.clif_lines.specs.WordRenaming.{renaming};
ghost use Rattle.clif_resolve.specs.FormTypes as spec;
ghost use Rattle.clif_meaning.specs.Instructions.{known, type_for};
ghost use Rattle.clif_meaning.specs.Meaning.{types_for};

use crate::forms::{FormTypes, form_results};
use clif_insts::RawInst;
use clif_lines::WordNumbers;
use clif_names::gives_type;
use clif_read::{RawBlock, RawBlockParam, RawLine};
use ir_core::{Func, Ty, Value};
use std::alloc::{AllocError, Global};
use token_reader::RawName;

/// The type of a value, and `i8` where it has none.
fn type_at(types: &[Ty], value: Value) -> Ty
    ensures { result ≡ known (slice_get types.now value) }
{
    match types.get(value.number() as usize) {
        Some(ty) => *ty,
        None => Ty::I8,
    }
}

/// The type of an instruction: its suffix, or else the type of the operand that gives it, by the types of values.
fn inst_type(words: &WordNumbers<'_>, types: &[Ty], inst: &RawInst) -> Ty
    ensures { result ≡ spec.type_after (renaming words.now) types.now inst.now }
{
    match inst.suffix {
        Some(ty) => ty,
        None => match gives_type(&inst.operands) {
            Some(name) => type_at(types, words.value(name)),
            None => Ty::I64,
        },
    }
}

/// The type of a function's value, and `i8` where it has none.
fn find_type(func: &Func, value: Value) -> Ty
    ensures { result ≡ known (type_in func.now.function.types value) }
{
    if (value.number() as usize) < func.values() {
        func.ty(value)
    } else {
        Ty::I8
    }
}

/// The type of an instruction in a function that has its values.
pub(crate) fn find_inst_type(words: &WordNumbers<'_>, func: &Func, inst: &RawInst) -> Ty
    ensures { result ≡ known (type_for (type_in func.now.function.types) (renaming words.now) inst.now) }
{
    match inst.suffix {
        Some(ty) => ty,
        None => match gives_type(&inst.operands) {
            Some(name) => find_type(func, words.value(name)),
            None => Ty::I64,
        },
    }
}

/// Appends a type for each result, by the form.
fn push_results(
    types: &mut Vec<Ty>,
    func: &Func,
    results: &[RawName],
    form: &FormTypes,
) -> Result<(), AllocError>
    ensures { OnOk result
        (types.new.items ≡ types.old.items ++ types_for results.now (spec.listed func.now.function form.now)) }
{
    for place in 0..results.len() {
        types.push(form.at(func, place))?;
    }
    Ok(())
}

/// Appends the types of a line's results.
#[tactic(auto, unfolding(crate::specs::FormTypes::with_step))]
fn push_line(
    types: &mut Vec<Ty>,
    func: &Func,
    words: &WordNumbers<'_>,
    line: &RawLine,
) -> Result<(), AllocError>
    ensures { OnOk result
        (types.new.items
        ≡ spec.with_step func.now.function (renaming words.now) types.old.items (Line line.now)) }
{
    if let RawLine::Inst { results, inst, .. } = line {
        let ty = inst_type(words, types.as_slice(), inst);
        let form = form_results(func, words, ty, inst);
        push_results(types, func, results.as_slice(), &form)?;
    }
    Ok(())
}

/// Appends the types of a block's parameters.
#[tactic(auto, using(name_tables::proofs::Folds::map_more))]
fn push_params(types: &mut Vec<Ty>, params: &[RawBlockParam]) -> Result<(), AllocError>
    ensures { OnOk result (types.new.items ≡ types.old.items ++ map (λ p. p.ty) params.now) }
{
    for param in params {
        types.push(param.ty)?;
    }
    Ok(())
}

/// Appends the types of the results of lines.
#[tactic(auto, using(name_tables::proofs::Folds::fold_map_more))]
fn push_lines(
    types: &mut Vec<Ty>,
    func: &Func,
    words: &WordNumbers<'_>,
    lines: &[RawLine],
) -> Result<(), AllocError>
    ensures { OnOk result
        (types.new.items
        ≡ fold (spec.with_step func.now.function (renaming words.now)) types.old.items (map Line lines.now)) }
{
    for line in lines {
        push_line(types, func, words, line)?;
    }
    Ok(())
}

/// Appends the types of a block's values.
#[tactic(auto, using(crate::proofs::TypesAlong::block_along))]
fn push_block(
    types: &mut Vec<Ty>,
    func: &Func,
    words: &WordNumbers<'_>,
    block: &RawBlock,
) -> Result<(), AllocError>
    ensures { OnOk result
        (types.new.items
        ≡ fold (spec.with_step func.now.function (renaming words.now)) types.old.items (block_steps block.now)) }
{
    push_params(types, block.params.as_slice())?;
    push_lines(types, func, words, block.lines.as_slice())
}

/// The types of all values of a function that has its declarations.
#[tactic(auto, using(name_tables::proofs::Folds::fold_more))]
pub(crate) fn value_types(
    alloc: Global,
    func: &Func,
    words: &WordNumbers<'_>,
    blocks: &[RawBlock],
) -> Result<Vec<Ty>, AllocError>
    ensures { IfOk result
        (λ types. types.items
        ≡ spec.types_along func.now.function (renaming words.now) (flat_map block_steps blocks.now)) }
{
    let mut types = Vec::with_capacity(alloc, words.names.values_before.len())?;
    for block in blocks {
        push_block(&mut types, func, words, block)?;
    }
    Ok(types)
}
