//! Comparison, choice, and values of other widths.
ghost use Rattle.std.specs.Prelude.{◌≡◌, ◌≤◌, ◌<◌, ◌==◌, if◌then◌else◌};
ghost use Rattle.clk_num.specs.Width.{bits_of, double, half};
ghost use Rattle.clk_num.specs.Views.{data_of};
ghost use Rattle.clk_num.specs.Operations.{value_of, holds, flag_of, sextend, ireduce, iconcat, low_half, high_half};
ghost use Rattle.clk_num.specs.declared.width.Width.TheVariants.{W8};

use crate::bits::Bits;
use crate::op::Cc;
use crate::width::Width;

/// Whether the relation holds.
pub(crate) fn compare(cc: Cc, x: Bits, y: Bits) -> bool
    requires { x.width ≡ y.width }
    ensures { result ≡ holds cc (bits_of x.width) x.value y.value }
{
    match cc {
        Cc::Eq => x.value == y.value,
        Cc::Ne => x.value != y.value,
        Cc::Slt => x.signed() < y.signed(),
        Cc::Sge => x.signed() >= y.signed(),
        Cc::Sgt => x.signed() > y.signed(),
        Cc::Sle => x.signed() <= y.signed(),
        Cc::Ult => x.value < y.value,
        Cc::Uge => x.value >= y.value,
        Cc::Ugt => x.value > y.value,
        Cc::Ule => x.value <= y.value,
    }
}

/// The `i8` 1 for true and 0 for false.
pub(crate) fn flag(holds: bool) -> Bits
    ensures { data_of result ≡ value_of W8 (flag_of holds) }
{
    Bits {
        width: Width::W8,
        value: if holds { 1 } else { 0 },
    }
}

/// `select`: x where the condition is not 0, else y.
pub(crate) fn select(condition: Bits, x: Bits, y: Bits) -> Bits
    requires { x.width ≡ y.width }
    ensures { data_of result ≡ value_of x.width (if condition.value == 0 then y.value else x.value) }
{
    if condition.value == 0 { y } else { x }
}

/// `uextend`, by zeros.
pub(crate) fn uextend(target: Width, x: Bits) -> Bits
    requires { bits_of x.width < bits_of target }
    ensures { data_of result ≡ value_of target x.value }
{
    Bits {
        width: target,
        value: x.value,
    }
}

/// `sextend`, by the sign.
pub(crate) fn sextend(target: Width, x: Bits) -> Bits
    ensures { data_of result ≡ value_of target (sextend (bits_of target) (bits_of x.width) x.value) }
{
    Bits::wrap(target, x.signed())
}

/// `ireduce`: the low bits.
pub(crate) fn ireduce(target: Width, x: Bits) -> Bits
    ensures { data_of result ≡ value_of target (ireduce (bits_of target) x.value) }
{
    Bits::new(target, x.value)
}

/// `iconcat`: x below y.
pub(crate) fn iconcat(x: Bits, y: Bits) -> Bits
    requires same { x.width ≡ y.width }
    requires narrow { bits_of x.width ≤ 64 }
    ensures { data_of result ≡ value_of (double x.width) (iconcat (bits_of x.width) x.value y.value) }
{
    Bits::new(x.width.double(), (y.value << x.width.bits()) | x.value)
}

/// The low half of `isplit`.
pub(crate) fn low_half(x: Bits) -> Bits
    requires { 16 ≤ bits_of x.width }
    ensures { data_of result ≡ value_of (half x.width) (low_half (bits_of (half x.width)) x.value) }
{
    Bits::new(x.width.half(), x.value)
}

/// The high half of `isplit`.
pub(crate) fn high_half(x: Bits) -> Bits
    requires { 16 ≤ bits_of x.width }
    ensures { data_of result ≡ value_of (half x.width) (high_half (bits_of (half x.width)) x.value) }
{
    let width = x.width.half();
    Bits::new(width, x.value >> width.bits())
}
