//! Where the items of a module stand in its text.
ghost use Rattle.std.specs.Prelude.{◌≡◌, IfOk, IsSome, Some, flat_map, map};
ghost use Rattle.name_tables.specs.Definitions.{callee_names};
ghost use Rattle.clif_resolve.specs.Places.{spots_of};
ghost use Rattle.clif_names.specs.Faults.{of_functions};
ghost use Rattle.clif_meaning.specs.Spots as spec;

use clif_read::{RawBlock, RawDecl, RawFunction, RawLine, RawModule};
use ir_core::{Item, List};
use std::alloc::{AllocError, Global};
use std::marker::Model;

/// The spots of a function: of its name, and of its items by their numbers.
#[derive(Drop)]
pub(crate) struct FunctionSpots {
    pub(crate) whole: usize,
    pub(crate) callees: List<usize>,
    pub(crate) blocks: List<usize>,
    pub(crate) insts: List<List<usize>>,
}

/// Where the items of a module stand in its text. Contracts see it as the spots of each function.
#[derive(Drop)]
pub struct Places {
    functions: List<FunctionSpots>,
}

impl Model for Places {
    ghost use Rattle.std.specs.Prelude.{List, map};
    ghost use Rattle.clif_meaning.specs.Spots.{Spots};
    ghost use Rattle.clif_resolve.specs.Places.{spots_of};

    ghost Value = { List Spots };

    ghost view = { λ s. map spots_of s.functions };
}

/// The spots of the words of callee declarations.
fn callee_spots(alloc: Global, decls: &[RawDecl]) -> Result<List<usize>, AllocError>
    ensures { IfOk result (λ spots. spots ≡ spec.word_spots (flat_map callee_names decls.now)) }
{
    let mut spots = Vec::new(alloc);
    for decl in decls {
        if let RawDecl::Callee { callee, .. } = decl {
            spots.push(callee.spot)?;
        }
    }
    Ok(List::from_vec(spots))
}

/// The spots of the words of blocks.
#[tactic(auto, using(name_tables::proofs::Folds::map_more))]
fn block_spots(alloc: Global, blocks: &[RawBlock]) -> Result<List<usize>, AllocError>
    ensures { IfOk result (λ spots. spots ≡ map (λ b. b.block.spot) blocks.now) }
{
    let mut spots = Vec::with_capacity(alloc, blocks.len())?;
    for block in blocks {
        spots.push(block.block.spot)?;
    }
    Ok(List::from_vec(spots))
}

/// The spots of the opcodes of lines. An alias line is no instruction.
fn line_spots(alloc: Global, lines: &[RawLine]) -> Result<List<usize>, AllocError>
    ensures { IfOk result (λ spots. spots ≡ flat_map spec.line_spots lines.now) }
{
    let mut spots = Vec::with_capacity(alloc, lines.len())?;
    for line in lines {
        if let RawLine::Inst { inst, .. } = line {
            spots.push(inst.opcode.spot)?;
        }
    }
    Ok(List::from_vec(spots))
}

/// The spots of the instructions of each block.
#[tactic(auto, using(name_tables::proofs::Folds::map_more))]
fn inst_spots(alloc: Global, blocks: &[RawBlock]) -> Result<List<List<usize>>, AllocError>
    ensures { IfOk result (λ spots. spots ≡ map (λ b. flat_map spec.line_spots b.lines) blocks.now) }
{
    let mut spots = Vec::with_capacity(alloc, blocks.len())?;
    for block in blocks {
        spots.push(line_spots(alloc, block.lines.as_slice())?)?;
    }
    Ok(List::from_vec(spots))
}

/// The spots of a function and of its items.
#[tactic(auto, using(crate::proofs::BlockWords::words_of_blocks))]
fn function_spots(alloc: Global, raw: &RawFunction) -> Result<FunctionSpots, AllocError>
    ensures { IfOk result (λ spots. spots_of spots ≡ spec.function_spots raw.now) }
{
    Ok(FunctionSpots {
        whole: raw.name.spot(),
        callees: callee_spots(alloc, raw.decls.as_slice())?,
        blocks: block_spots(alloc, raw.blocks.as_slice())?,
        insts: inst_spots(alloc, raw.blocks.as_slice())?,
    })
}

impl Places {
    /// Where the items of the module that a raw module means stand. Takes time linear in the text. Only `AllocError`
    /// refuses.
    pub fn of(alloc: Global, raw: &RawModule) -> Result<Places, AllocError>
        ensures { IfOk result (λ places. places ≡ spec.spots raw.now) }
    {
        Places::of_functions(alloc, raw.functions.as_slice())
    }

    /// The same for the raw module of these functions.
    pub(crate) fn of_functions(
        alloc: Global,
        functions: &[RawFunction],
    ) -> Result<Places, AllocError>
        ensures { IfOk result (λ places. places ≡ spec.spots (of_functions functions.now)) }
    {
        let mut spots = Vec::with_capacity(alloc, functions.len())?;
        for func in functions {
            spots.push(function_spots(alloc, func)?)?;
        }
        Ok(Places {
            functions: List::from_vec(spots),
        })
    }

    /// The byte at which an item of the module stands: a function's name, a declaration's or a block's word, an
    /// instruction's opcode.
    pub fn spot(&self, func: usize, item: Item) -> usize
        requires { IsSome (spec.spot_of self.now func item) }
        ensures { spec.spot_of self.now func item ≡ Some result }
    {
        let spots = &self.functions.as_slice()[func];
        match item {
            Item::Whole => spots.whole,
            Item::Callee(number) => spots.callees.as_slice()[number as usize],
            Item::Block(number) => spots.blocks.as_slice()[number as usize],
            Item::Inst(point) => {
                let insts = &spots.insts.as_slice()[point.block.number() as usize];
                insts.as_slice()[point.index as usize]
            }
        }
    }
}
