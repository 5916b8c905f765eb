//! The places of numbers in a list.
ghost use Rattle.std.specs.Prelude.{◌≡◌, ◌+◌, ◌<◌, ◌≤◌, ◌^◌, [], IsOk, OnOk, length, vec_capacity};
ghost use Rattle.ir_core.specs.Lists.{Below, Different};
ghost use Rattle.ir_core.specs.Lookup.{number_in};
ghost use Rattle.clif_numbers.specs.Placed.{IsEntry};

use std::alloc::{AllocError, Global};
use std::marker::Model;
use std::mem;

/// A list of different numbers, and the place of each. Contracts see the list and the room of both.
#[derive(Drop)]
pub(crate) struct Places {
    order: Vec<u32>,
    /// By a number its place, and the length of the list for a number that the list does not have.
    places: Vec<u32>,
}

impl Model for Places {
    ghost use Rattle.std.specs.Prelude.{vec_capacity};
    ghost use Rattle.clif_numbers.specs.Room.{PlacesInRoom};

    ghost Value = { PlacesInRoom };

    ghost use Rattle.clif_numbers.specs.Placed.{ArePlaces};

    ghost view = { λ p.
        record { order = p.order.items; listed = vec_capacity p.order; bound = vec_capacity p.places } };

    ghost invariant = { λ p. ArePlaces p.order.items p.places.items };
}

impl Places {
    /// No numbers. Takes no memory.
    pub(crate) fn new(alloc: Global) -> Places
        ensures { result.order ≡ [] }
    {
        Places {
            order: Vec::new(alloc),
            places: Vec::new(alloc),
        }
    }

    /// Makes room for so many numbers, and for the places of all numbers below that. No numbers are left. Only
    /// `AllocError` refuses.
    pub(crate) fn make_room(&mut self, count: usize) -> Result<(), AllocError>
        ensures room { OnOk result ((count ≤ self.new.listed) × (count ≤ self.new.bound)) }
        ensures listed { self.old.listed ≤ self.new.listed }
        ensures bound { self.old.bound ≤ self.new.bound }
    {
        self.order.clear();
        self.places.clear();
        self.order.reserve(count)?;
        self.places.reserve(count)
    }

    /// An empty list in the memory of this one. No numbers are left.
    pub(crate) fn take(&mut self) -> Vec<u32>
        ensures empty { result.items ≡ [] }
        ensures listed { vec_capacity result ≡ self.old.listed }
        ensures bound { self.new.bound ≡ self.old.bound }
    {
        let alloc = *self.order.allocator();
        let mut order = mem::replace(&mut self.order, Vec::new(alloc));
        order.clear();
        self.places.clear();
        order
    }

    /// The places of other numbers, which are below `bound`. Only `AllocError` refuses, where there is no room for
    /// them, and leaves no numbers.
    pub(crate) fn set(&mut self, bound: usize, order: Vec<u32>) -> Result<(), AllocError>
        requires range { Below bound order.items }
        requires different { Different order.items }
        requires small { bound < 2 ^ 32 }
        ensures order { OnOk result (self.new.order ≡ order.items) }
        ensures listed { OnOk result (self.new.listed ≡ vec_capacity order) }
        ensures bound { OnOk result (self.old.bound ≤ self.new.bound) }
        ensures succeeds { bound ≤ self.old.bound → IsOk result }
    {
        let count = order.len() as u32;
        self.order.clear();
        self.places.clear();
        self.places.resize(bound, count)?;
        for (i, number) in order.iter().enumerate() {
            self.places[*number as usize] = i as u32;
        }
        self.order = order;
        Ok(())
    }

    /// The place of a number. What the list does not have comes behind all that it has.
    pub(crate) fn place(&self, number: u32) -> u64
        ensures { result ≡ number_in self.now.order number }
    {
        let entry = self.entry(number);
        if entry < self.len() {
            u64::from(entry)
        } else {
            u64::from(number) + u64::from(self.len())
        }
    }

    /// The place of a number, and the length of the list where the list does not have it.
    fn entry(&self, number: u32) -> u32
        ensures { IsEntry self.now.order number result }
    {
        match self.places.get(number as usize) {
            Some(place) => *place,
            None => self.len(),
        }
    }

    /// How many numbers there are.
    pub(crate) fn len(&self) -> u32
        ensures { result ≡ length self.now.order }
    {
        self.order.len() as u32
    }
}
