//! The bytes of a frame's slots.
ghost use Rattle.std.specs.Prelude.{◌≡◌, ◌*◌, ◌^◌, ◌<◌, ◌≤◌, [], length, OnOk, OnErr, IfOk, MatchResult};
ghost use Rattle.std.proofs.Common.{get_or};
ghost use Rattle.ir_semantics.specs.Values.{unwritten, bytes_from, put_byte, put_bytes, bytes_of};
ghost use Rattle.byte_store.specs.Cells.{bytes_at};
ghost use Rattle.byte_store.specs.Bytes.{number_at};

use crate::cells::Cells;
use crate::errors::{ShowErr, Unwritten};
use std::alloc::{AllocError, Global};
use std::marker::Model;

/// The bytes of slots, each written or not, by slot and offset. Contracts see a list of lists, in which
/// `bytes_at` finds a byte. Sizes of slots are the caller's: a slot takes memory up to its last byte that was written.
#[derive(Drop)]
pub struct Slots {
    alloc: Global,
    slots: Vec<Cells<u8>>,
}

impl Model for Slots {
    ghost use Rattle.std.specs.Prelude.{List, ℕ, Option};

    ghost Value = { List (List (Option ℕ)) };

    ghost view = { λ s. s.slots.items };
}

impl Slots {
    /// All bytes are unwritten. It takes no memory.
    pub fn new(alloc: Global) -> Slots
        ensures { bytes_at result ≡ unwritten }
    {
        Slots {
            alloc,
            slots: Vec::new(alloc),
        }
    }

    /// The byte at an offset of a slot, where it is written.
    fn byte(&self, slot: u32, offset: usize) -> Option<u8>
        ensures { result ≡ bytes_at self.now slot offset }
    {
        let slot = slot as usize;
        if slot < self.slots.len() {
            self.slots[slot].get(offset)
        } else {
            None
        }
    }

    /// The number in so many bytes from an offset of a slot, the lowest first. `Unwritten` exactly where one of them is
    /// unwritten.
    pub fn read(&self, slot: u32, offset: u32, bytes: u32) -> Result<u128, Unwritten>
        requires { bytes ≤ 16 }
        ensures read { let read = bytes_from (bytes_at self.now slot) offset bytes in MatchResult result
            (λ n. Some n ≡ number_at read) (λ _. None ≡ read) }
        ensures small { IfOk result (λ n. n < 2 ^ (8 * bytes)) }
    {
        let mut number = 0u128;
        'bytes: for i in 0..bytes {
            match self.byte(slot, offset as usize + (bytes - 1 - i) as usize) {
                None => return Err(Unwritten),
                Some(byte) => number = number * 256 + u128::from(byte),
            }
        }
        Ok(number)
    }

    /// Makes place for the first `len` bytes of a slot. What is written stays as it was; an `Err` is want of memory.
    fn make_room(&mut self, slot: usize, len: usize) -> Result<(), AllocError>
        ensures same { bytes_at self.new ≡ bytes_at self.old }
        ensures slot { OnOk result (slot < length self.new) }
        ensures room { OnOk result (len ≤ length (get_or self.new slot [])) }
    {
        'slots: while self.slots.len() <= slot {
            self.slots.push(Cells::new(self.alloc))?;
        }
        let cells = &mut self.slots[slot];
        cells.make_room(len)
    }

    /// Writes a byte that has its place.
    fn set(&mut self, slot: usize, offset: usize, byte: u8)
        requires slot { slot < length self.old }
        requires room { offset < length (get_or self.old slot []) }
        ensures written { bytes_at self.new ≡ put_byte (bytes_at self.old) slot offset byte }
        ensures slot { length self.new ≡ length self.old }
        ensures room { length (get_or self.new slot []) ≡ length (get_or self.old slot []) }
    {
        let cells = &mut self.slots[slot];
        cells.set(offset, byte);
    }

    /// Writes the lowest bytes of a number from an offset of a slot on, the lowest first. Slots take memory as they are
    /// written, so a frame costs nothing for slots that it does not use: only `AllocError` refuses, and then the slots
    /// are as they were.
    pub fn write(
        &mut self,
        slot: u32,
        offset: u32,
        bytes: u32,
        value: u128,
    ) -> Result<(), AllocError>
        requires { bytes ≤ 16 }
        ensures ok { OnOk result
            (bytes_at self.new ≡ put_bytes (bytes_at self.old) slot offset (bytes_of bytes value)) }
        ensures err { OnErr result (bytes_at self.new ≡ bytes_at self.old) }
    {
        let slot = slot as usize;
        let offset = offset as usize;
        self.make_room(slot, offset + bytes as usize)?;
        let mut rest = value;
        'bytes: for i in 0..bytes {
            self.set(slot, offset + i as usize, (rest % 256) as u8);
            rest /= 256;
        }
        Ok(())
    }

    /// The first bytes of a slot, so many as the slot's size. `Unwritten` exactly where one of them is unwritten.
    pub fn shown(&self, slot: u32, size: u32) -> Result<Vec<u8>, ShowErr>
        ensures ok { let shown = bytes_from (bytes_at self.now slot) 0 size in IfOk result
            (λ bytes. Some bytes.items ≡ shown) }
        ensures err { result ≡ Err ShowErr.Unwritten → None ≡ bytes_from (bytes_at self.now slot) 0 size }
    {
        let mut shown = Vec::new(self.alloc);
        'bytes: for i in 0..size {
            match self.byte(slot, i as usize) {
                None => return Err(ShowErr::Unwritten),
                Some(byte) => shown.push(byte)?,
            }
        }
        Ok(shown)
    }
}
