//! Functions: declarations, and blocks whose instructions stand in one arena.
ghost use Rattle.std.specs.Prelude.{◌≡◌, ℕ, ◌+◌, ◌<◌, ◌++◌, List, [], ◌∷◌, length, IfOk, OnOk, OnErr};
ghost use Rattle.ir_core.specs.Lookup.{block_numbers, definitions};
ghost use Rattle.ir_core.specs.Lists.{In, Different, Below};
ghost use Rattle.ir_core.specs.Sound.{CanAdd, LineInRange, counts_of, instruction_count};
ghost use Rattle.ir_core.specs.Edits.{at_block, put_param, put_line};
ghost use Rattle.ir_core.specs.Viewed.{line_of};

mod copying;
mod reading;
mod splicing;

use crate::declarations::{Callee, SlotDecl};
use crate::instructions::InstData;
use crate::names::FuncName;
use crate::numbers::{Block, FuncRef, SigRef, Slot, Value};
use crate::signatures::{Sig, Ty};
use crate::values::Values;
pub use reading::{Blocks, Insts};
use std::alloc::{AllocError, Global};
use std::marker::Model;

/// A block: its parameters, its range in the arena of instructions, and the next block in list order. `len` of the
/// `cap` places from `start` on hold its instructions.
#[derive(Drop)]
struct BlockData {
    params: Values,
    start: usize,
    len: usize,
    cap: usize,
    next: Option<Block>,
}

/// A function while it is built and after. Contracts see its parts as plain lists, and how many more of each kind take
/// no memory. Every number in it is in range, and each value is defined at most once.
#[derive(Drop)]
pub struct Func {
    name: FuncName,
    sig: Sig,
    slots: Vec<SlotDecl>,
    sigs: Vec<Sig>,
    callees: Vec<Callee>,
    types: Vec<Ty>,
    insts: Vec<InstData>,
    blocks: Vec<BlockData>,
    first: Option<Block>,
    last: Option<Block>,
    /// How many of the declared values a block parameter or a result defines.
    defined: usize,
    alloc: Global,
}

impl Model for Func {
    ghost use Rattle.ir_core.specs.Edits.{Body};

    ghost Value = { Body };

    ghost use Rattle.ir_core.specs.Layout.{body_of, IsLaidOut};

    ghost view = { body_of };

    ghost invariant = { IsLaidOut };
}

impl Func {
    /// A function without declarations and blocks.
    pub fn new(alloc: Global, name: FuncName, sig: Sig) -> Result<Func, AllocError>
        ensures { IfOk result
            (λ func. func.function
            ≡ record { name = name; sig = sig; slots = []; sigs = []; callees = []; types = []; blocks = [] }) }
    {
        Ok(Func {
            name,
            sig,
            slots: Vec::new(alloc),
            sigs: Vec::new(alloc),
            callees: Vec::new(alloc),
            types: Vec::new(alloc),
            insts: Vec::new(alloc),
            blocks: Vec::new(alloc),
            first: None,
            last: None,
            defined: 0,
            alloc,
        })
    }

    /// Appends a stack slot and answers its number. Only `AllocError` refuses.
    pub fn add_slot(&mut self, slot: SlotDecl) -> Result<Slot, AllocError>
        requires few { CanAdd (length self.old.function.slots) }
        ensures number { IfOk result (λ n. n ≡ length self.old.function.slots) }
        ensures ok { OnOk result
            (self.new.function ≡ record self.old.function { slots = self.old.function.slots ++ slot ∷ [] }) }
        ensures err { OnErr result (self.new.function ≡ self.old.function) }
        ensures room { self.new.room ≡ record self.old.room { slots = self.new.room.slots } }
    {
        let number = self.slots.len() as u32;
        self.slots.push(slot)?;
        Ok(Slot::new(number))
    }

    /// Appends a signature and answers its number. Only `AllocError` refuses.
    pub fn add_sig(&mut self, sig: Sig) -> Result<SigRef, AllocError>
        requires few { CanAdd (length self.old.function.sigs) }
        ensures number { IfOk result (λ n. n ≡ length self.old.function.sigs) }
        ensures ok { OnOk result
            (self.new.function ≡ record self.old.function { sigs = self.old.function.sigs ++ sig ∷ [] }) }
        ensures err { OnErr result (self.new.function ≡ self.old.function) }
        ensures room { self.new.room ≡ record self.old.room { sigs = self.new.room.sigs } }
    {
        let number = self.sigs.len() as u32;
        self.sigs.push(sig)?;
        Ok(SigRef::new(number))
    }

    /// Appends a callee declaration, whose signature the function has, and answers its number. Only `AllocError`
    /// refuses.
    pub fn add_callee(&mut self, callee: Callee) -> Result<FuncRef, AllocError>
        requires few { CanAdd (length self.old.function.callees) }
        requires in_range { callee.sig < length self.old.function.sigs }
        ensures number { IfOk result (λ n. n ≡ length self.old.function.callees) }
        ensures ok { OnOk result
            (self.new.function ≡ record self.old.function { callees = self.old.function.callees ++ callee ∷ [] }) }
        ensures err { OnErr result (self.new.function ≡ self.old.function) }
        ensures room { self.new.room ≡ record self.old.room { callees = self.new.room.callees } }
    {
        let number = self.callees.len() as u32;
        self.callees.push(callee)?;
        Ok(FuncRef::new(number))
    }

    /// Declares a value of the type, which nothing defines yet, and answers its number. Only `AllocError` refuses.
    pub fn declare(&mut self, ty: Ty) -> Result<Value, AllocError>
        requires few { CanAdd (length self.old.function.types) }
        ensures number { IfOk result (λ v. v ≡ length self.old.function.types) }
        ensures ok { OnOk result
            (self.new.function
            ≡ record self.old.function {
              types = self.old.function.types ++ (length self.old.function.types, ty)
                  ∷ [];
            }) }
        ensures err { OnErr result (self.new.function ≡ self.old.function) }
        ensures room { self.new.room ≡ record self.old.room { values = self.new.room.values } }
    {
        let number = self.types.len() as u32;
        self.types.push(ty)?;
        Ok(Value::new(number))
    }

    /// Appends an empty block and answers its number. Only `AllocError` refuses.
    pub fn add_block(&mut self) -> Result<Block, AllocError>
        requires few { CanAdd (length self.old.function.blocks) }
        ensures number { IfOk result (λ n. n ≡ length self.old.function.blocks) }
        ensures ok { IfOk result
            (λ n. self.new.function
            ≡ record self.old.function {
              blocks = self.old.function.blocks
                  ++ record { number = n; params = []; lines = [] } ∷ [];
            }) }
        ensures err { OnErr result (self.new.function ≡ self.old.function) }
        ensures room { self.new.room ≡ record self.old.room { blocks = self.new.room.blocks } }
    {
        self.blocks.reserve(1)?;
        Ok(match self.last {
            Some(last) => self.insert_block(last, Values::none()),
            None => self.begin(),
        })
    }

    /// Puts the first block. There is room for it.
    fn begin(&mut self) -> Block
        requires none { self.old.function.blocks ≡ [] }
        requires room { 0 < self.old.room.blocks }
        ensures body { self.new.function
            ≡ record self.old.function { blocks = record { number = 0; params = []; lines = [] } ∷ [] } }
        ensures number { result ≡ 0 }
        ensures room { self.old.room ≡ record self.new.room { blocks = self.new.room.blocks + 1 } }
    {
        let block = Block::new(0);
        self.blocks.push_reserved(BlockData {
            params: Values::none(),
            start: 0,
            len: 0,
            cap: 0,
            next: None,
        });
        self.first = Some(block);
        self.last = Some(block);
        block
    }

    /// Appends a parameter to a block. Only `AllocError` refuses.
    pub fn add_param(&mut self, block: Block, value: Value) -> Result<(), AllocError>
        requires there { In block (block_numbers self.old.function.blocks) }
        requires declared { value < length self.old.function.types }
        requires undefined { In value (definitions self.old.function.blocks) → ⊥ }
        ensures ok { OnOk result
            (self.new.function
            ≡ record self.old.function { blocks = at_block block (put_param value) self.old.function.blocks }) }
        ensures err { OnErr result (self.new.function ≡ self.old.function) }
        ensures room { self.new.room ≡ self.old.room }
    {
        self.blocks[block.number() as usize]
            .params
            .push(self.alloc, value)?;
        self.defined += 1;
        Ok(())
    }

    /// Appends an instruction to a block. Only `AllocError` refuses.
    pub fn add_inst(&mut self, block: Block, added: InstData) -> Result<(), AllocError>
        requires there { In block (block_numbers self.old.function.blocks) }
        requires in_range { LineInRange (counts_of self.old.function) (line_of added) }
        requires different { Different added.results }
        requires undefined { (v : ℕ) → In v added.results → In v (definitions self.old.function.blocks) → ⊥ }
        requires few { CanAdd (instruction_count self.old.function.blocks) }
        ensures ok { OnOk result
            (self.new.function
            ≡ record self.old.function
            { blocks = at_block block (put_line (line_of added)) self.old.function.blocks }) }
        ensures err { OnErr result (self.new.function ≡ self.old.function) }
        ensures room { self.new.room ≡ record self.old.room { insts = self.new.room.insts } }
    {
        match self.insts.reserve(1) {
            Ok(()) => {
                self.put_inst(block, added);
                Ok(())
            }
            Err(error) => {
                drop(added);
                Err(error)
            }
        }
    }
}
