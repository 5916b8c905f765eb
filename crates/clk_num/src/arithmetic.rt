//! Sums, products, signs, the lesser and the greater, and whether a sum overflows.
ghost use Rattle.std.specs.Prelude.{◌≡◌, ◌≤◌};
ghost use Rattle.clk_num.specs.Width.{bits_of};
ghost use Rattle.clk_num.specs.Views.{data_of};
ghost use Rattle.clk_num.specs.Operations.{value_of, iadd, isub, imul, ineg, iabs, smin, smax, umin, umax, umulhi};
ghost use Rattle.clk_num.specs.Operations.{smulhi, uadd_overflows, sadd_overflows, usub_overflows, ssub_overflows};

use crate::bits::Bits;

/// `iadd`, wrapping.
pub(crate) fn iadd(x: Bits, y: Bits) -> Bits
    ensures { data_of result ≡ value_of x.width (iadd (bits_of x.width) x.value y.value) }
{
    Bits::new(x.width, x.value.wrapping_add(y.value))
}

/// `isub`, wrapping.
pub(crate) fn isub(x: Bits, y: Bits) -> Bits
    requires { x.width ≡ y.width }
    ensures { data_of result ≡ value_of x.width (isub (bits_of x.width) x.value y.value) }
{
    Bits::new(x.width, x.value.wrapping_sub(y.value))
}

/// `imul`, wrapping.
pub(crate) fn imul(x: Bits, y: Bits) -> Bits
    ensures { data_of result ≡ value_of x.width (imul (bits_of x.width) x.value y.value) }
{
    Bits::new(x.width, x.value.wrapping_mul(y.value))
}

/// `ineg`, wrapping.
pub(crate) fn ineg(x: Bits) -> Bits
    ensures { data_of result ≡ value_of x.width (ineg (bits_of x.width) x.value) }
{
    Bits::new(x.width, 0u128.wrapping_sub(x.value))
}

/// `iabs`: the least value is itself.
pub(crate) fn iabs(x: Bits) -> Bits
    ensures { data_of result ≡ value_of x.width (iabs (bits_of x.width) x.value) }
{
    if x.value <= x.width.greatest_signed() {
        x
    } else {
        ineg(x)
    }
}

/// `smin`, by the signed order.
pub(crate) fn smin(x: Bits, y: Bits) -> Bits
    requires { x.width ≡ y.width }
    ensures { data_of result ≡ value_of x.width (smin (bits_of x.width) x.value y.value) }
{
    if y.signed() < x.signed() { y } else { x }
}

/// `smax`, by the signed order.
pub(crate) fn smax(x: Bits, y: Bits) -> Bits
    requires { x.width ≡ y.width }
    ensures { data_of result ≡ value_of x.width (smax (bits_of x.width) x.value y.value) }
{
    if x.signed() < y.signed() { y } else { x }
}

/// `umin`, by the unsigned order.
pub(crate) fn umin(x: Bits, y: Bits) -> Bits
    requires { x.width ≡ y.width }
    ensures { data_of result ≡ value_of x.width (umin (bits_of x.width) x.value y.value) }
{
    if y.value < x.value { y } else { x }
}

/// `umax`, by the unsigned order.
pub(crate) fn umax(x: Bits, y: Bits) -> Bits
    requires { x.width ≡ y.width }
    ensures { data_of result ≡ value_of x.width (umax (bits_of x.width) x.value y.value) }
{
    if x.value < y.value { y } else { x }
}

/// `umulhi`: the upper half of the product, at most 128 bits of which there are.
pub(crate) fn umulhi(x: Bits, y: Bits) -> Bits
    requires same { x.width ≡ y.width }
    requires narrow { bits_of x.width ≤ 64 }
    ensures { data_of result ≡ value_of x.width (umulhi (bits_of x.width) x.value y.value) }
{
    Bits {
        width: x.width,
        value: (x.value * y.value) >> x.width.bits(),
    }
}

/// `smulhi`: the upper half of the signed product.
pub(crate) fn smulhi(x: Bits, y: Bits) -> Bits
    requires same { x.width ≡ y.width }
    requires narrow { bits_of x.width ≤ 64 }
    ensures { data_of result ≡ value_of x.width (smulhi (bits_of x.width) x.value y.value) }
{
    Bits::wrap(x.width, (x.signed() * y.signed()) >> x.width.bits())
}

/// Whether the unsigned sum is no value of the type.
pub(crate) fn uadd_overflows(x: Bits, y: Bits) -> bool
    requires { x.width ≡ y.width }
    ensures { result ≡ uadd_overflows (bits_of x.width) x.value y.value }
{
    x.width.greatest() - x.value < y.value
}

/// Whether the signed sum is no value of the type.
pub(crate) fn sadd_overflows(x: Bits, y: Bits) -> bool
    requires { x.width ≡ y.width }
    ensures { result ≡ sadd_overflows (bits_of x.width) x.value y.value }
{
    match x.signed().checked_add(y.signed()) {
        Some(sum) => !x.width.holds_signed(sum),
        None => true,
    }
}

/// Whether the unsigned difference is no value of the type.
pub(crate) fn usub_overflows(x: Bits, y: Bits) -> bool
    ensures { result ≡ usub_overflows (bits_of x.width) x.value y.value }
{
    x.value < y.value
}

/// Whether the signed difference is no value of the type.
pub(crate) fn ssub_overflows(x: Bits, y: Bits) -> bool
    requires { x.width ≡ y.width }
    ensures { result ≡ ssub_overflows (bits_of x.width) x.value y.value }
{
    match x.signed().checked_sub(y.signed()) {
        Some(difference) => !x.width.holds_signed(difference),
        None => true,
    }
}
