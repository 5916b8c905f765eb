//! Values of the integer types.
ghost use Rattle.std.specs.Prelude.{◌≡◌, ◌<◌, ◌^◌, ◌%◌, is_some, IsSome, IfSome};
ghost use Rattle.clk_num.specs.Width.{bits_of};
ghost use Rattle.clk_num.specs.Numbers.{signed, wrapped, fits};

use crate::width::Width;

/// A value of an integer type: its width, and its bits as a number below two to the power of the width.
#[derive(Clone, Copy, PartialEq, Eq)]
pub struct Bits {
    pub width: Width,
    pub value: u128,
    pub ghost in_range: { value < 2 ^ bits_of width },
}

impl Bits {
    /// The value modulo two to the power of the width.
    pub fn new(width: Width, value: u128) -> Bits
        ensures width { result.width ≡ width }
        ensures value { result.value ≡ value % 2 ^ bits_of width }
    {
        Bits {
            width,
            value: value & width.greatest(),
        }
    }

    /// The value that is this number read as signed or as unsigned. None exactly where the number is below the least
    /// signed value or above the greatest unsigned one: at `W128` never.
    pub fn fit(width: Width, number: i128) -> Option<Bits>
        ensures answer { is_some result ≡ fits (bits_of width) number }
        ensures widest { width ≡ Width.W128 → IsSome result }
        ensures width { IfSome result (λ b. b.width ≡ width) }
        ensures value { IfSome result (λ b. b.value ≡ wrapped (bits_of width) number) }
    {
        if number < 0 {
            let complement = (-1 - number) as u128;
            if complement <= width.greatest_signed() {
                Some(Bits {
                    width,
                    value: width.greatest() - complement,
                })
            } else {
                None
            }
        } else {
            let value = number as u128;
            if value <= width.greatest() {
                Some(Bits { width, value })
            } else {
                None
            }
        }
    }

    /// The number modulo two to the power of the width.
    pub(crate) fn wrap(width: Width, number: i128) -> Bits
        ensures width { result.width ≡ width }
        ensures value { result.value ≡ wrapped (bits_of width) number }
    {
        Bits::new(width, number.cast_unsigned())
    }

    /// The type of the value.
    pub fn width(&self) -> Width
        ensures { result ≡ self.now.width }
    {
        self.width
    }

    /// The value read as unsigned.
    pub fn value(&self) -> u128
        ensures value { result ≡ self.now.value }
        ensures in_range { result < 2 ^ bits_of self.now.width }
    {
        self.value
    }

    /// The value read as signed, by two's complement.
    pub fn signed(&self) -> i128
        ensures { result ≡ signed (bits_of self.now.width) self.now.value }
    {
        if self.value <= self.width.greatest_signed() {
            self.value as i128
        } else {
            -1 - (self.width.greatest() - self.value) as i128
        }
    }
}
