//! Building a function that has no fault.
ghost use Rattle.std.specs.Prelude.{◌≡◌, ◌≢◌, [], ◌-◌, ◌<◌, ◌^◌, length, map, IfOk, IfSome, MatchOption, OnOk};
ghost use Rattle.std.specs.List.{enumerate_from};
ghost use Rattle.ir_core.specs.Sound.{IsWhole};
ghost use Rattle.name_tables.specs.Chains.{IsNumbering};
ghost use Rattle.name_tables.specs.Definitions.{value_defs};
ghost use Rattle.clif_names.specs.FunctionNames.{AreNamesOf, NoFunctionFault};
ghost use Rattle.clif_lines.specs.WordRenaming.{renaming};
ghost use Rattle.clif_resolve.specs.Declaring as declaring;
ghost use Rattle.clif_resolve.specs.Filling.{empty_block, IsReady, meant, valued};
ghost use Rattle.clif_meaning.specs.Meaning.{FunctionMeans, numbers};

use crate::declarations::{Sigs, callees, slots};
use crate::filling::Filling;
use crate::types::value_types;
use clif_lines::{WordNumbers, func_name, signature};
use clif_names::FunctionNames;
use clif_read::{RawBlock, RawFunction, RawLine};
use ir_core::{Func, List, Room, Sig};
use std::alloc::{AllocError, Global};

/// The function that is meant, `None` exactly where it has a fault of names or numbers. Takes time linear in its text,
/// but for the logarithm that words with numbers far apart take. Only `AllocError` refuses.
pub fn meant_function(alloc: Global, raw: &RawFunction) -> Result<Option<Func>, AllocError>
    requires { raw.now.blocks ≢ [] }
    ensures free { IfOk result
        (λ built. MatchOption built (¬ NoFunctionFault raw.now) (λ _. NoFunctionFault raw.now)) }
    ensures meant { IfOk result (λ built. IfSome built (λ func. FunctionMeans raw.now func.function)) }
    ensures whole { IfOk result (λ built. IfSome built (λ func. IsWhole func.function)) }
{
    let names = FunctionNames::of(alloc, raw)?;
    meant_by_names(alloc, raw, &names)
}

/// The same by the names of its text.
fn meant_by_names(
    alloc: Global,
    raw: &RawFunction,
    names: &FunctionNames,
) -> Result<Option<Func>, AllocError>
    requires begins { raw.now.blocks ≢ [] }
    requires names { AreNamesOf raw.now names.now }
    ensures free { IfOk result
        (λ built. MatchOption built (¬ NoFunctionFault raw.now) (λ _. NoFunctionFault raw.now)) }
    ensures meant { IfOk result (λ built. IfSome built (λ func. FunctionMeans raw.now func.function)) }
    ensures whole { IfOk result (λ built. IfSome built (λ func. IsWhole func.function)) }
{
    if !names.least(raw).is_none() {
        return Ok(None);
    }
    let mut func = undeclared(alloc, raw)?;
    build_by_names(alloc, raw, names, &mut func)?;
    Ok(Some(func))
}

/// A function with the name and the signature that are meant, and nothing else.
fn undeclared(alloc: Global, raw: &RawFunction) -> Result<Func, AllocError>
    requires { NoFunctionFault raw.now }
    ensures { IfOk result (λ func. func.function ≡ declaring.undeclared raw.now) }
{
    let name = func_name(&raw.name)?;
    let sig = signature(alloc, &raw.signature)?;
    let func = Func::new(alloc, name, sig)?;
    Ok(func)
}

/// Makes a function with its name and signature alone the one that is meant, by the names of its text.
fn build_by_names(
    alloc: Global,
    raw: &RawFunction,
    names: &FunctionNames,
    func: &mut Func,
) -> Result<(), AllocError>
    requires free { NoFunctionFault raw.now }
    requires begins { raw.now.blocks ≢ [] }
    requires names { AreNamesOf raw.now names.now }
    requires undeclared { func.old.function ≡ declaring.undeclared raw.now }
    ensures meant { OnOk result (FunctionMeans raw.now func.new.function) }
    ensures whole { OnOk result (IsWhole func.new.function) }
{
    let Sigs { list, numbers } = Sigs::of(alloc, raw.decls.as_slice())?;
    let words = WordNumbers {
        names,
        sigs: numbers,
    };
    build_by_words(alloc, raw, &words, List::from_vec(list), func)
}

/// The same by the numbers of its words and the list of its signatures.
fn build_by_words(
    alloc: Global,
    raw: &RawFunction,
    words: &WordNumbers<'_>,
    sigs: List<Sig>,
    func: &mut Func,
) -> Result<(), AllocError>
    requires free { NoFunctionFault raw.now }
    requires begins { raw.now.blocks ≢ [] }
    requires words { renaming words.now ≡ numbers raw.now (renaming words.now).value }
    requires numbering { IsNumbering (value_defs raw.now) (renaming words.now).value }
    requires sigs { sigs ≡ declaring.sigs_of raw.now }
    requires undeclared { func.old.function ≡ declaring.undeclared raw.now }
    ensures meant { OnOk result (FunctionMeans raw.now func.new.function) }
    ensures whole { OnOk result (IsWhole func.new.function) }
{
    declare(alloc, raw, words, sigs, func)?;
    let types = value_types(alloc, func, words, raw.blocks.as_slice())?;
    func.take_values(List::from_vec(types));
    complete(alloc, func, &Filling { raw, words })?;
    Ok(())
}

/// Gives a function with its name and signature alone its declarations.
fn declare(
    alloc: Global,
    raw: &RawFunction,
    words: &WordNumbers<'_>,
    sigs: List<Sig>,
    func: &mut Func,
) -> Result<(), AllocError>
    requires free { NoFunctionFault raw.now }
    requires words { renaming words.now ≡ numbers raw.now (renaming words.now).value }
    requires sigs { sigs ≡ declaring.sigs_of raw.now }
    requires undeclared { func.old.function ≡ declaring.undeclared raw.now }
    ensures { OnOk result (func.new.function ≡ declaring.declared raw.now (renaming words.now).value) }
{
    let decls = raw.decls.as_slice();
    let slots = slots(alloc, decls)?;
    let callees = callees(alloc, words, decls)?;
    func.take_declarations(slots, sigs, callees);
    Ok(())
}

/// Gives a function that has its declarations and its values its blocks.
fn complete(alloc: Global, func: &mut Func, filling: &Filling<'_>) -> Result<(), AllocError>
    requires ready { IsReady filling.now.raw.now (renaming filling.now.words.now) }
    requires values { func.old.function ≡ valued filling.now.raw.now (renaming filling.now.words.now) }
    ensures { OnOk result (func.new.function ≡ meant filling.now.raw.now (renaming filling.now.words.now)) }
{
    add_blocks(func, filling.raw.blocks.as_slice())?;
    filling.fill(alloc, func)
}

/// How many instructions stand in these blocks.
fn instruction_count(blocks: &[RawBlock]) -> usize {
    let mut count = 0usize;
    for block in blocks {
        for line in block.lines.as_slice() {
            if let RawLine::Inst { .. } = line {
                count = count.saturating_add(1);
            }
        }
    }
    count
}

/// Adds an empty block for each that is written, and makes room for their instructions.
fn add_blocks(func: &mut Func, blocks: &[RawBlock]) -> Result<(), AllocError>
    requires none { func.old.function.blocks ≡ [] }
    requires few { length blocks.now < 2 ^ 32 - 1 }
    ensures { OnOk result
        (func.new.function ≡ record func.old.function { blocks = map empty_block (enumerate_from 0 blocks.now) }) }
{
    func.reserve(Room {
        slots: 0,
        sigs: 0,
        callees: 0,
        values: 0,
        blocks: blocks.len(),
        insts: instruction_count(blocks),
    })?;
    add_each_block(func, blocks)
}

/// Adds an empty block for each that is written, one after the other.
fn add_each_block(func: &mut Func, blocks: &[RawBlock]) -> Result<(), AllocError>
    requires none { func.old.function.blocks ≡ [] }
    requires few { length blocks.now < 2 ^ 32 - 1 }
    ensures { OnOk result
        (func.new.function ≡ record func.old.function { blocks = map empty_block (enumerate_from 0 blocks.now) }) }
{
    for _block in blocks {
        func.add_block()?;
    }
    Ok(())
}
