//! What a function has.
ghost use Rattle.std.specs.Prelude.{◌≡◌, ℕ, ◌<◌, ◌↔◌, List, [], length, map, min, slice_get, Some, IfOk, IsTrue};
ghost use Rattle.std.specs.Iterator.{YieldsFirst, item_count};
ghost use Rattle.std.specs.Slice.Iter.{iter_rest};
ghost use Rattle.ir_core.specs.Lookup.{block_numbers, type_of};
ghost use Rattle.ir_core.specs.Lists.{In};
ghost use Rattle.ir_core.specs.Sound.{IsSound, IsWhole};
ghost use Rattle.ir_core.specs.Size.{size_of, size_at, capped};
ghost use Rattle.ir_core.specs.Edits.{params_of, lines_of, IsPoint};
ghost use Rattle.ir_core.specs.Viewed.{line_of};

use super::{BlockData, Func};
use crate::declarations::{Callee, SlotDecl};
use crate::instructions::InstData;
use crate::names::FuncName;
use crate::numbers::{Block, Value};
use crate::places::Point;
use crate::signatures::{Sig, Ty};
use std::marker::Model;
use std::slice::Iter;

/// The instructions of a block, in order.
pub type Insts<'a> = Iter<'a, InstData>;

/// The numbers of a function's blocks, in list order. Contracts see the numbers that are left.
#[derive(Drop)]
pub struct Blocks<'a> {
    blocks: &'a [BlockData],
    next: Option<Block>,
    left: usize,
}

impl<'a> Model for Blocks<'a> {
    ghost use Rattle.std.specs.Prelude.{List, ℕ};

    ghost Value = { List ℕ };

    ghost use Rattle.ir_core.specs.Layout.{walk, nexts};

    ghost view = { λ a. walk (nexts a.blocks.now) a.left a.next };
}

impl<'a> Iterator for Blocks<'a> {
    type Item = Block;

    ghost next_gives = { YieldsFirst (λ left. left) };

    ghost remaining = { item_count (λ left. left) };

    fn next(&mut self) -> Option<Block> {
        self.left = self.left.checked_sub(1)?;
        let block = self.next?;
        let entry = self.blocks.get(block.number() as usize)?;
        self.next = entry.next;
        Some(block)
    }
}

impl Func {
    /// The function's name.
    pub fn name(&self) -> &FuncName
        ensures value { result.now ≡ self.now.function.name }
        ensures sound { IsSound self.now.function }
    {
        &self.name
    }

    /// The function's own signature.
    pub fn sig(&self) -> &Sig
        ensures { result.now ≡ self.now.function.sig }
    {
        &self.sig
    }

    /// The stack slots, by their numbers.
    pub fn slots(&self) -> &[SlotDecl]
        ensures { result.now ≡ self.now.function.slots }
    {
        self.slots.as_slice()
    }

    /// The signatures, by their numbers.
    pub fn sigs(&self) -> &[Sig]
        ensures { result.now ≡ self.now.function.sigs }
    {
        self.sigs.as_slice()
    }

    /// The callee declarations, by their numbers.
    pub fn callees(&self) -> &[Callee]
        ensures { result.now ≡ self.now.function.callees }
    {
        self.callees.as_slice()
    }

    /// The number of declared values.
    pub fn values(&self) -> usize
        ensures count { result ≡ length self.now.function.types }
        ensures sound { IsSound self.now.function }
    {
        self.types.len()
    }

    /// The number of blocks.
    #[inline]
    pub fn block_count(&self) -> usize
        ensures { result ≡ length self.now.function.blocks }
    {
        self.blocks.len()
    }

    /// The type of a value.
    pub fn ty(&self, value: Value) -> Ty
        requires { value < length self.now.function.types }
        ensures { type_of self.now.function value ≡ Some result }
    {
        self.types[value.number() as usize]
    }

    /// The numbers of the blocks, in list order.
    pub fn blocks(&self) -> Blocks<'_>
        ensures numbers { result ≡ block_numbers self.now.function.blocks }
        ensures sound { IsSound self.now.function }
    {
        Blocks {
            blocks: self.blocks.as_slice(),
            next: self.first,
            left: self.blocks.len(),
        }
    }

    /// The parameters of a block, in order.
    pub fn params(&self, block: Block) -> &[Value]
        requires { In block (block_numbers self.now.function.blocks) }
        ensures { result.now ≡ params_of block self.now.function.blocks }
    {
        self.blocks[block.number() as usize].params.as_slice()
    }

    /// The instructions of a block, in order.
    pub fn inst_slice(&self, block: Block) -> &[InstData]
        requires { In block (block_numbers self.now.function.blocks) }
        ensures { map line_of result.now ≡ lines_of block self.now.function.blocks }
    {
        let entry = &self.blocks[block.number() as usize];
        &self.insts[entry.start..entry.start + entry.len]
    }

    /// The instructions of a block, in order.
    pub fn insts(&self, block: Block) -> Insts<'_>
        requires { In block (block_numbers self.now.function.blocks) }
        ensures { map line_of (iter_rest result) ≡ lines_of block self.now.function.blocks }
    {
        self.inst_slice(block).iter()
    }

    /// The instruction at a place.
    pub fn inst(&self, at: Point) -> &InstData
        requires { IsPoint self.now.function at }
        ensures { slice_get (lines_of at.block self.now.function.blocks) at.index ≡ Some (line_of result.now) }
    {
        &self.inst_slice(at.block)[at.index as usize]
    }

    /// Whether each declared value is defined exactly once and there is a block.
    pub fn whole(&self) -> bool
        ensures { IsTrue result ↔ IsWhole self.now.function }
    {
        self.first.is_some() && self.defined == self.types.len()
    }

    /// The function's size: the number of its parts that the limits on sizes count. The greatest number of the type
    /// where it is greater.
    pub fn size(&self) -> usize
        ensures { result ≡ capped (size_of self.now.function) }
    {
        let mut size = self.slots.len().saturating_add(self.callees.len());
        for sig in self.sigs.iter() {
            size = size.saturating_add(sig.size());
        }
        for block in self.blocks() {
            size = size.saturating_add(self.block_size(block));
        }
        size
    }

    /// A block's part of the size.
    fn block_size(&self, block: Block) -> usize
        requires { In block (block_numbers self.now.function.blocks) }
        ensures { result ≡ capped (size_at self.now.function.blocks block) }
    {
        let mut size = 1usize.saturating_add(self.params(block).len());
        for added in self.inst_slice(block) {
            size = size.saturating_add(added.size());
        }
        size
    }
}
