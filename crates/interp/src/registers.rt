//! The values of a frame, by their numbers.
ghost use Rattle.std.specs.Prelude.{◌≡◌, ◌<◌, ◌^◌, length, IfOk};
ghost use Rattle.std.specs.Option.{option_map};
ghost use Rattle.clk_num.specs.Width.{bits_of};
ghost use Rattle.clk_num.specs.Operations.{value_of};
ghost use Rattle.clk_num.specs.Views.{data_of};
ghost use Rattle.ir_semantics.specs.Values.{put, no_values};
ghost use Rattle.interp.specs.State.{env_of};

use crate::held::{Held, Register};
use byte_store::Cells;
use clk_num::{Bits, Width};
use std::alloc::{AllocError, Global};

/// The values of a frame, by their numbers. A value takes 16 bytes, and more only where it is 2^64 or above.
#[derive(Drop)]
pub struct Registers {
    pub narrow: Vec<Register>,
    pub wide: Cells<Bits>,
}

impl Registers {
    /// No number has a value. It takes no memory.
    pub fn new(alloc: Global) -> Registers
        ensures { env_of result ≡ no_values }
    {
        Registers {
            narrow: Vec::new(alloc),
            wide: Cells::new(alloc),
        }
    }

    /// The value of a number, where it has one.
    pub fn get(&self, at: usize) -> Option<Bits>
        ensures { option_map data_of result ≡ env_of self.now at }
    {
        if at >= self.narrow.len() {
            return None;
        }
        let register = &self.narrow[at];
        match register.held {
            Held::Nothing => None,
            Held::Narrow => Some(Bits {
                width: register.width,
                value: u128::from(register.value),
            }),
            Held::Wide => match self.wide.get(at) {
                None => None,
                Some(x) => Some(Bits {
                    width: x.width,
                    value: x.value,
                }),
            },
        }
    }

    /// Gives a number its value. `Err` is want of memory, for the registers up to the number or for the cell of a value
    /// of 2^64 or above: then nothing is said of the values.
    pub fn put(&mut self, at: usize, value: Bits) -> Result<(), AllocError>
        ensures { IfOk result (λ _. env_of self.new ≡ put (env_of self.old) at (data_of value)) }
    {
        if value.value <= 0xffff_ffff_ffff_ffff {
            self.put_narrow(at, value.width, value.value as u64)
        } else {
            self.put_wide(at, value.width, value.value)
        }
    }

    /// Gives a number a value below 2^64.
    fn put_narrow(&mut self, at: usize, width: Width, value: u64) -> Result<(), AllocError>
        requires in_range { value < 2 ^ bits_of width }
        ensures { IfOk result (λ _. env_of self.new ≡ put (env_of self.old) at (value_of width value)) }
    {
        self.make_room(at)?;
        self.narrow[at] = Register {
            held: Held::Narrow,
            width,
            value,
        };
        Ok(())
    }

    /// Gives a number a value that may be 2^64 or above.
    fn put_wide(&mut self, at: usize, width: Width, value: u128) -> Result<(), AllocError>
        requires in_range { value < 2 ^ bits_of width }
        ensures { IfOk result (λ _. env_of self.new ≡ put (env_of self.old) at (value_of width value)) }
    {
        self.make_room(at)?;
        self.wide.put(at, Bits { width, value })?;
        self.narrow[at] = Register {
            held: Held::Wide,
            width: Width::W8,
            value: 0,
        };
        Ok(())
    }

    /// Makes place for what stands at a number.
    fn make_room(&mut self, at: usize) -> Result<(), AllocError>
        ensures same { IfOk result (λ _. env_of self.new ≡ env_of self.old) }
        ensures room { IfOk result (λ _. at < length self.new.narrow.items) }
    {
        'room: while self.narrow.len() <= at {
            self.narrow.push(Register {
                held: Held::Nothing,
                width: Width::W8,
                value: 0,
            })?;
        }
        Ok(())
    }
}
