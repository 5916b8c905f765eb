//! Filling the blocks of a function that has its declarations, its values and empty blocks.
ghost use Rattle.std.specs.Prelude.{◌≡◌, ◌<◌, ◌+◌, ◌^◌, length, slice_get, Some, OnOk};
ghost use Rattle.clif_lines.specs.WordRenaming.{renaming};
ghost use Rattle.clif_resolve.specs.Filling as spec;

use crate::types::find_inst_type;
use clif_lines::{WordNumbers, line};
use clif_read::{RawBlock, RawFunction, RawLine};
use ir_core::{Block, Func};
use std::alloc::{AllocError, Global};

/// A function as it is written, and the numbers of its words.
#[derive(Drop)]
pub(crate) struct Filling<'a> {
    pub(crate) raw: &'a RawFunction,
    pub(crate) words: &'a WordNumbers<'a>,
}

impl<'a> Filling<'a> {
    /// Fills all blocks.
    pub(crate) fn fill(&self, alloc: Global, func: &mut Func) -> Result<(), AllocError>
        requires ready { spec.IsReady self.now.raw.now (renaming self.now.words.now) }
        requires few { length self.now.raw.now.blocks < 2 ^ 32 }
        requires empty { func.old.function
            ≡ spec.filled self.now.raw.now (renaming self.now.words.now) 0 }
        ensures { OnOk result
            (func.new.function ≡ spec.meant self.now.raw.now (renaming self.now.words.now)) }
    {
        for place in 0..self.raw.blocks.as_slice().len() {
            self.fill_block(alloc, func, place)?;
        }
        Ok(())
    }

    /// Fills the block at a place.
    fn fill_block(&self, alloc: Global, func: &mut Func, place: usize) -> Result<(), AllocError>
        requires ready { spec.IsReady self.now.raw.now (renaming self.now.words.now) }
        requires there { place < length self.now.raw.now.blocks }
        requires small { place < 2 ^ 32 }
        requires before { func.old.function
            ≡ spec.filled self.now.raw.now (renaming self.now.words.now) place }
        ensures { OnOk result
            (func.new.function
            ≡ spec.filled self.now.raw.now (renaming self.now.words.now) (place + 1)) }
    {
        let block = &self.raw.blocks.as_slice()[place];
        let number = Block::new(place as u32);
        self.add_params(func, number, block)?;
        self.add_lines(alloc, func, number, block)?;
        Ok(())
    }

    /// Adds all parameters of the block of this number.
    fn add_params(&self, func: &mut Func, number: Block, block: &RawBlock) -> Result<(), AllocError>
        requires ready { spec.IsReady self.now.raw.now (renaming self.now.words.now) }
        requires at { slice_get self.now.raw.now.blocks number ≡ Some block.now }
        requires before { func.old.function
            ≡ spec.opened self.now.raw.now (renaming self.now.words.now) number 0 0 }
        ensures { OnOk result
            (func.new.function
            ≡ spec.opened self.now.raw.now (renaming self.now.words.now) number
            (length block.now.params) 0) }
    {
        for index in 0..block.params.as_slice().len() {
            self.add_param(func, number, block, index)?;
        }
        Ok(())
    }

    /// Adds a parameter of the block of this number.
    fn add_param(
        &self,
        func: &mut Func,
        number: Block,
        block: &RawBlock,
        index: usize,
    ) -> Result<(), AllocError>
        requires ready { spec.IsReady self.now.raw.now (renaming self.now.words.now) }
        requires at { slice_get self.now.raw.now.blocks number ≡ Some block.now }
        requires there { index < length block.now.params }
        requires before { func.old.function
            ≡ spec.opened self.now.raw.now (renaming self.now.words.now) number index 0 }
        ensures { OnOk result
            (func.new.function
            ≡ spec.opened self.now.raw.now (renaming self.now.words.now) number (index + 1) 0) }
    {
        let param = block.params.as_slice()[index];
        func.add_param(number, self.words.value(param.value))?;
        Ok(())
    }

    /// Adds all lines of the block of this number, whose parameters are there.
    fn add_lines(
        &self,
        alloc: Global,
        func: &mut Func,
        number: Block,
        block: &RawBlock,
    ) -> Result<(), AllocError>
        requires ready { spec.IsReady self.now.raw.now (renaming self.now.words.now) }
        requires at { slice_get self.now.raw.now.blocks number ≡ Some block.now }
        requires before { func.old.function
            ≡ spec.opened self.now.raw.now (renaming self.now.words.now) number
            (length block.now.params) 0 }
        ensures { OnOk result
            (func.new.function
            ≡ spec.opened self.now.raw.now (renaming self.now.words.now) number
            (length block.now.params) (length block.now.lines)) }
    {
        for index in 0..block.lines.as_slice().len() {
            self.add_line(alloc, func, number, block, index)?;
        }
        Ok(())
    }

    /// Adds a line of the block of this number, whose parameters are there.
    fn add_line(
        &self,
        alloc: Global,
        func: &mut Func,
        number: Block,
        block: &RawBlock,
        index: usize,
    ) -> Result<(), AllocError>
        requires ready { spec.IsReady self.now.raw.now (renaming self.now.words.now) }
        requires at { slice_get self.now.raw.now.blocks number ≡ Some block.now }
        requires there { index < length block.now.lines }
        requires before { func.old.function
            ≡ spec.opened self.now.raw.now (renaming self.now.words.now) number
            (length block.now.params) index }
        ensures { OnOk result
            (func.new.function
            ≡ spec.opened self.now.raw.now (renaming self.now.words.now) number
            (length block.now.params) (index + 1)) }
    {
        match &block.lines.as_slice()[index] {
            RawLine::Alias { .. } => Ok(()),
            RawLine::Inst {
                tags,
                results,
                inst,
                ..
            } => {
                let ty = find_inst_type(self.words, func, inst);
                let tags = tags.as_slice();
                let added = line(alloc, self.words, ty, tags, results.as_slice(), inst)?;
                func.add_inst(number, added)?;
                Ok(())
            }
        }
    }
}
