//! What stands at the number of a value.
ghost use Rattle.std.specs.Prelude.{◌<◌, ◌^◌};
ghost use Rattle.clk_num.specs.Width.{bits_of};

use clk_num::Width;

/// Whether a number has no value, one below 2^64, or one that stands among the wide ones.
#[derive(Clone, Copy)]
pub enum Held {
    Nothing,
    Narrow,
    Wide,
}

/// What stands at a number. The width and the value are those of a narrow one.
#[derive(Clone, Copy)]
pub struct Register {
    pub held: Held,
    pub width: Width,
    pub value: u64,
    pub ghost in_range: { value < 2 ^ bits_of width },
}
