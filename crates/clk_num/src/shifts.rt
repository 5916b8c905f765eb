//! Shifts and rotations. The amount is a value of any type, taken modulo the width of the value that is shifted.
ghost use Rattle.std.specs.Prelude.{◌≡◌, ◌+◌, ◌-◌, ◌*◌, ◌/◌, ◌%◌, ◌^◌, ◌<◌};
ghost use Rattle.clk_num.specs.Width.{bits_of};
ghost use Rattle.clk_num.specs.Views.{data_of};
ghost use Rattle.clk_num.specs.Operations.{value_of, ishl, ushr, sshr, rotl, rotr};

use crate::bits::Bits;

/// The amount modulo the width of x.
fn amount(x: Bits, by: Bits) -> u32
    ensures value { result ≡ by.value % bits_of x.width }
    ensures bound { result < bits_of x.width }
{
    (by.value % u128::from(x.width.bits())) as u32
}

/// `ishl`.
pub(crate) fn ishl(x: Bits, by: Bits) -> Bits
    ensures { data_of result ≡ value_of x.width (ishl (bits_of x.width) x.value by.value) }
{
    Bits::new(x.width, x.value << amount(x, by))
}

/// `ushr`, by zeros.
pub(crate) fn ushr(x: Bits, by: Bits) -> Bits
    ensures { data_of result ≡ value_of x.width (ushr (bits_of x.width) x.value by.value) }
{
    Bits {
        width: x.width,
        value: x.value >> amount(x, by),
    }
}

/// `sshr`, by the sign.
pub(crate) fn sshr(x: Bits, by: Bits) -> Bits
    ensures { data_of result ≡ value_of x.width (sshr (bits_of x.width) x.value by.value) }
{
    Bits::wrap(x.width, x.signed() >> amount(x, by))
}

/// The bits of x, moved up by less than the width, the upper ones coming in below.
fn rotated(x: Bits, up: u32) -> Bits
    requires { up < bits_of x.width }
    ensures width { result.width ≡ x.width }
    ensures value { result.value ≡ x.value * 2 ^ up % 2 ^ bits_of x.width + x.value / 2 ^ (bits_of x.width - up) }
{
    if up == 0 {
        x
    } else {
        Bits::new(
            x.width,
            (x.value << up) | (x.value >> (x.width.bits() - up)),
        )
    }
}

/// `rotl`.
pub(crate) fn rotl(x: Bits, by: Bits) -> Bits
    ensures { data_of result ≡ value_of x.width (rotl (bits_of x.width) x.value by.value) }
{
    rotated(x, amount(x, by))
}

/// `rotr`.
pub(crate) fn rotr(x: Bits, by: Bits) -> Bits
    ensures { data_of result ≡ value_of x.width (rotr (bits_of x.width) x.value by.value) }
{
    let down = amount(x, by);
    if down == 0 {
        x
    } else {
        rotated(x, x.width.bits() - down)
    }
}
