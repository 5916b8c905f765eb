//! Operations bit by bit, counts of bits, and bits and bytes in the other order.
ghost use Rattle.std.specs.Prelude.{◌≡◌, ◌≤◌};
ghost use Rattle.clk_num.specs.Width.{bits_of};
ghost use Rattle.clk_num.specs.Views.{data_of};
ghost use Rattle.clk_num.specs.Operations.{value_of, band, bor, bxor, bnot, clz, ctz, popcnt, bitrev, bswap};

use crate::bits::Bits;
use crate::width::Width;

/// `band`.
pub(crate) fn band(x: Bits, y: Bits) -> Bits
    ensures { data_of result ≡ value_of x.width (band (bits_of x.width) x.value y.value) }
{
    Bits::new(x.width, x.value & y.value)
}

/// `bor`.
pub(crate) fn bor(x: Bits, y: Bits) -> Bits
    ensures { data_of result ≡ value_of x.width (bor (bits_of x.width) x.value y.value) }
{
    Bits::new(x.width, x.value | y.value)
}

/// `bxor`.
pub(crate) fn bxor(x: Bits, y: Bits) -> Bits
    ensures { data_of result ≡ value_of x.width (bxor (bits_of x.width) x.value y.value) }
{
    Bits::new(x.width, x.value ^ y.value)
}

/// `bnot`.
pub(crate) fn bnot(x: Bits) -> Bits
    ensures { data_of result ≡ value_of x.width (bnot (bits_of x.width) x.value) }
{
    Bits::new(x.width, !x.value)
}

/// `clz`: the leading zeros, the width for 0.
pub(crate) fn clz(x: Bits) -> Bits
    ensures { data_of result ≡ value_of x.width (clz (bits_of x.width) x.value) }
{
    let above = 128 - x.width.bits();
    Bits::new(x.width, u128::from(x.value.leading_zeros() - above))
}

/// `ctz`: the trailing zeros, the width for 0.
pub(crate) fn ctz(x: Bits) -> Bits
    ensures { data_of result ≡ value_of x.width (ctz (bits_of x.width) x.value) }
{
    Bits::new(
        x.width,
        u128::from(x.value.trailing_zeros().min(x.width.bits())),
    )
}

/// `popcnt`: the bits that are set.
pub(crate) fn popcnt(x: Bits) -> Bits
    ensures { data_of result ≡ value_of x.width (popcnt (bits_of x.width) x.value) }
{
    Bits::new(x.width, u128::from(x.value.count_ones()))
}

/// `bitrev`: the bits in the other order.
pub(crate) fn bitrev(x: Bits) -> Bits
    ensures { data_of result ≡ value_of x.width (bitrev (bits_of x.width) x.value) }
{
    let above = 128 - x.width.bits();
    Bits::new(x.width, x.value.reverse_bits() >> above)
}

/// `bswap`: the bytes in the other order.
pub(crate) fn bswap(x: Bits) -> Bits
    ensures { data_of result ≡ value_of x.width (bswap (bits_of x.width) x.value) }
{
    let value = match x.width {
        Width::W8 => x.value,
        Width::W16 => u128::from((x.value as u16).swap_bytes()),
        Width::W32 => u128::from((x.value as u32).swap_bytes()),
        Width::W64 => u128::from((x.value as u64).swap_bytes()),
        Width::W128 => x.value.swap_bytes(),
    };
    Bits::new(x.width, value)
}
