//! Calls that change a function in place and take no memory.
ghost use Rattle.std.specs.Prelude.{All, ◌≡◌, ◌≢◌, ℕ, ◌+◌, ◌-◌, ◌<◌, ◌≤◌, ◌++◌, ◌^◌, List, [], ◌∷◌, length, map, take};
ghost use Rattle.std.specs.Prelude.{drop, slice_get, vec_len, vec_capacity, insert, IfOk, OnOk, OnErr};
ghost use Rattle.std.specs.List.{enumerate_from};
ghost use Rattle.ir_core.specs.Lookup.{block_numbers, definitions};
ghost use Rattle.ir_core.specs.Lists.{In, Different, Below, Each};
ghost use Rattle.ir_core.specs.Sound.{CanAdd, LineInRange, counts_of, instruction_count};
ghost use Rattle.ir_core.specs.Edits.{HasRoom, at_block, insert_after, put_param, put_line, lines_of, with_lines};
ghost use Rattle.ir_core.specs.Edits.{change_last, head_of};
ghost use Rattle.ir_core.specs.Viewed.{line_of};
ghost use Rattle.ir_core.specs.Shift.{shifted};

use super::{BlockData, Func};
use crate::declarations::{Callee, SlotDecl};
use crate::instructions::{Inst, InstData};
use crate::numbers::{Block, Value};
use crate::room::Room;
use crate::signatures::{Sig, Ty};
use crate::values::Values;
use containers::List;
use debug_tags::Tags;
use std::alloc::{AllocError, Global};
use std::mem;

/// Makes room for so many more items: in an empty list for these alone, in another for more, so that many calls of
/// little room each stay cheap.
fn reserve_more<T>(list: &mut Vec<T>, additional: usize) -> Result<(), AllocError>
    ensures items { list.new.items ≡ list.old.items }
    ensures ok { OnOk result (vec_len list.new + additional ≤ vec_capacity list.new) }
    ensures grows { vec_capacity list.old ≤ vec_capacity list.new }
{
    if list.is_empty() {
        list.reserve_exact(additional)
    } else {
        list.reserve(additional)
    }
}

impl Func {
    /// Makes room for so many more of each kind. All lists are as before, and no room shrinks. Only `AllocError`
    /// refuses.
    pub fn reserve(&mut self, room: Room) -> Result<(), AllocError>
        ensures same { self.new.function ≡ self.old.function }
        ensures ok { OnOk result (HasRoom room self.new.room) }
        ensures grows { HasRoom self.old.room self.new.room }
    {
        reserve_more(&mut self.slots, room.slots)?;
        reserve_more(&mut self.sigs, room.sigs)?;
        reserve_more(&mut self.callees, room.callees)?;
        reserve_more(&mut self.types, room.values)?;
        reserve_more(&mut self.blocks, room.blocks)?;
        reserve_more(&mut self.insts, room.insts)?;
        Ok(())
    }

    /// Appends slots, signatures, callees and values of these types, for which there is room. A callee may name one of
    /// the new signatures.
    pub fn append(
        &mut self,
        slots: List<SlotDecl>,
        sigs: List<Sig>,
        callees: List<Callee>,
        values: List<Ty>,
    )
        requires room { HasRoom
            (record {
              slots = length slots;
              sigs = length sigs;
              callees = length callees;
              values = length values;
              blocks = 0;
              insts = 0;
            }) self.old.room }
        requires few_slots { length self.old.function.slots + length slots < 2 ^ 32 - 1 }
        requires few_sigs { length self.old.function.sigs + length sigs < 2 ^ 32 - 1 }
        requires few_callees { length self.old.function.callees + length callees < 2 ^ 32 - 1 }
        requires few_values { length self.old.function.types + length values < 2 ^ 32 - 1 }
        requires in_range { Each (λ callee. callee.sig < length self.old.function.sigs + length sigs) callees }
        ensures body { self.new.function
            ≡ record self.old.function {
              slots = self.old.function.slots ++ slots;
              sigs = self.old.function.sigs
                  ++ sigs;
              callees = self.old.function.callees ++ callees;
              types = self.old.function.types
                  ++ enumerate_from (length self.old.function.types) values;
            } }
        ensures room { HasRoom self.old.room
            (record self.new.room {
              slots = self.new.room.slots + length slots;
              sigs = self.new.room.sigs + length sigs;
              callees = self.new.room.callees + length callees;
              values = self.new.room.values + length values;
            }) }
    {
        append_reserved(&mut self.slots, slots);
        append_reserved(&mut self.sigs, sigs);
        append_reserved(&mut self.callees, callees);
        append_reserved(&mut self.types, values);
    }

    /// Gives a function that declares no slot, signature or callee these. The lists go in as they are.
    pub fn take_declarations(
        &mut self,
        slots: List<SlotDecl>,
        sigs: List<Sig>,
        callees: List<Callee>,
    )
        requires no_slots { self.old.function.slots ≡ [] }
        requires no_sigs { self.old.function.sigs ≡ [] }
        requires no_callees { self.old.function.callees ≡ [] }
        requires few_slots { length slots < 2 ^ 32 - 1 }
        requires few_sigs { length sigs < 2 ^ 32 - 1 }
        requires few_callees { length callees < 2 ^ 32 - 1 }
        requires in_range { Each (λ callee. callee.sig < length sigs) callees }
        ensures { self.new.function ≡ record self.old.function { slots = slots; sigs = sigs; callees = callees } }
    {
        self.slots = slots.into_vec();
        self.sigs = sigs.into_vec();
        self.callees = callees.into_vec();
    }

    /// Gives a function that declares no value values of these types. The list goes in as it is.
    pub fn take_values(&mut self, values: List<Ty>)
        requires none { self.old.function.types ≡ [] }
        requires few { length values < 2 ^ 32 - 1 }
        ensures { self.new.function ≡ record self.old.function { types = enumerate_from 0 values } }
    {
        self.types = values.into_vec();
    }

    /// Lets the values and the blocks go, with their memory: the name, the signature and the declarations are left.
    pub fn drop_body(&mut self)
        ensures { self.new.function ≡ head_of self.old.function }
    {
        self.types = Vec::new(self.alloc);
        self.insts = Vec::new(self.alloc);
        self.blocks = Vec::new(self.alloc);
        self.first = None;
        self.last = None;
        self.defined = 0;
    }

    /// Puts an empty block directly after `after` and answers its number.
    pub fn insert_block(&mut self, after: Block, params: Values) -> Block
        requires there { In after (block_numbers self.old.function.blocks) }
        requires room { 0 < self.old.room.blocks }
        requires few { CanAdd (length self.old.function.blocks) }
        requires declared { Below (length self.old.function.types) params }
        requires different { Different params }
        requires undefined { (v : ℕ) → In v params → In v (definitions self.old.function.blocks) → ⊥ }
        ensures body { self.new.function
            ≡ record self.old.function {
              blocks = insert_after after (record { number = result; params = params; lines = [] })
                  self.old.function.blocks;
            } }
        ensures number { result ≡ length self.old.function.blocks }
        ensures room { self.old.room ≡ record self.new.room { blocks = self.new.room.blocks + 1 } }
        ensures blocks_differ { Different (block_numbers self.old.function.blocks) }
        ensures fresh { In result (block_numbers self.old.function.blocks) → ⊥ }
    {
        let number = Block::new(self.blocks.len() as u32);
        let start = self.insts.len();
        self.defined += params.as_slice().len();
        let place = after.number() as usize;
        let next = self.blocks[place].next;
        self.blocks.push_reserved(BlockData {
            params,
            start,
            len: 0,
            cap: 0,
            next,
        });
        self.blocks[place].next = Some(number);
        if next.is_none() {
            self.last = Some(number);
        }
        number
    }

    /// Appends an instruction to a block.
    pub fn put_inst(&mut self, block: Block, added: InstData)
        requires there { In block (block_numbers self.old.function.blocks) }
        requires in_range { LineInRange (counts_of self.old.function) (line_of added) }
        requires different { Different added.results }
        requires undefined { (v : ℕ) → In v added.results → In v (definitions self.old.function.blocks) → ⊥ }
        requires few { CanAdd (instruction_count self.old.function.blocks) }
        requires room { 0 < self.old.room.insts }
        ensures body { self.new.function
            ≡ record self.old.function { blocks = at_block block (put_line (line_of added)) self.old.function.blocks } }
        ensures room { self.new.room ≡ record self.old.room { insts = self.new.room.insts } }
        ensures room_insts { self.old.room.insts ≤ self.new.room.insts + 1 }
    {
        self.defined += added.results.as_slice().len();
        let entry = &mut self.blocks[block.number() as usize];
        let end = entry.start + entry.len;
        if entry.len < entry.cap {
            entry.len += 1;
            overwrite(&mut self.insts[end], added);
            return;
        }
        entry.len += 1;
        entry.cap += 1;
        if entry.cap == 1 {
            entry.start = self.insts.len();
            self.insts.push_reserved(added);
            return;
        }
        if end == self.insts.len() {
            self.insts.push_reserved(added);
            return;
        }
        move_starts(self.blocks.as_mut_slice(), end);
        put_between(&mut self.insts, end, added);
    }

    /// Takes the last instruction of a block away and answers it. Its results are then not defined.
    pub fn take_last(&mut self, block: Block) -> InstData
        requires there { In block (block_numbers self.old.function.blocks) }
        requires some { lines_of block self.old.function.blocks ≢ [] }
        ensures body { self.old.function
            ≡ record self.new.function
            { blocks = at_block block (put_line (line_of result)) self.new.function.blocks } }
        ensures room { self.new.room ≡ self.old.room }
    {
        let entry = &mut self.blocks[block.number() as usize];
        entry.len -= 1;
        let last = entry.start + entry.len;
        let taken = mem::replace(&mut self.insts[last], nop(self.alloc));
        self.defined -= taken.results.as_slice().len();
        taken
    }

    /// Moves the instructions from `index` on to `into`, which is another block, without instructions.
    pub fn cut(&mut self, block: Block, index: u32, into: Block)
        requires there { In block (block_numbers self.old.function.blocks) }
        requires into_there { In into (block_numbers self.old.function.blocks) }
        requires other { block ≢ into }
        requires within { index ≤ length (lines_of block self.old.function.blocks) }
        requires empty { lines_of into self.old.function.blocks ≡ [] }
        ensures body { self.new.function
            ≡ record self.old.function {
              blocks = at_block into (with_lines (drop index (lines_of block self.old.function.blocks)))
                  (at_block block (with_lines (take index (lines_of block self.old.function.blocks)))
                  self.old.function.blocks);
            } }
        ensures room { self.new.room ≡ self.old.room }
    {
        let index = index as usize;
        let entry = &mut self.blocks[block.number() as usize];
        let start = entry.start + index;
        let len = entry.len - index;
        let cap = entry.cap - index;
        entry.len = index;
        entry.cap = index;
        let entry = &mut self.blocks[into.number() as usize];
        entry.start = start;
        entry.len = len;
        entry.cap = cap;
    }
}

/// Moves the items of a list to the end of a vector that has room for them.
fn append_reserved<T: Drop>(items: &mut Vec<T>, more: List<T>)
    requires { vec_len items.old + length more ≤ vec_capacity items.old }
    ensures items { items.new.items ≡ items.old.items ++ more }
    ensures len { vec_len items.new ≡ vec_len items.old + length more }
    ensures capacity { vec_capacity items.old ≤ vec_capacity items.new }
{
    let _ = items.append(&mut more.into_vec());
}

/// An instruction that does nothing.
fn nop(alloc: Global) -> InstData {
    InstData {
        inst: Inst::Nop,
        ty: None,
        results: Values::none(),
        tags: Tags::new(Vec::new(alloc)),
    }
}

/// Writes an instruction in the place of one that is in use no more.
fn overwrite(place: &mut InstData, added: InstData)
    ensures { place.new ≡ added }
{
    drop(mem::replace(place, added));
}

/// Puts an instruction at a place of the arena, which has room for it. Those from there on move back by one.
fn put_between(insts: &mut Vec<InstData>, place: usize, added: InstData)
    requires room { vec_len insts.old < vec_capacity insts.old }
    requires within { place ≤ vec_len insts.old }
    ensures items { insts.new.items ≡ insert insts.old.items place added }
    ensures len { vec_len insts.new ≡ vec_len insts.old + 1 }
    ensures capacity { vec_capacity insts.old ≤ vec_capacity insts.new }
{
    drop(insts.insert(place, added));
}

/// Moves each range that starts at a place or after it by one.
fn move_starts(blocks: &mut [BlockData], place: usize)
    requires { All (λ entry. entry.start + 1 < 2 ^ 64) blocks.old }
    ensures { blocks.new ≡ map (shifted place) blocks.old }
{
    for entry in blocks.iter_mut() {
        if place <= entry.start {
            entry.start += 1;
        }
    }
}
