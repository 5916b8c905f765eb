//! Quotients and remainders, each of which may trap.
ghost use Rattle.std.specs.Prelude.{◌≡◌, [], ◌∷◌};
ghost use Rattle.clk_num.specs.Width.{bits_of};
ghost use Rattle.clk_num.specs.Views.{data_of, evaluation_of};
ghost use Rattle.clk_num.specs.Operations.{division, divides_by_zero, sdiv_trap, udiv, urem, sdiv, srem};

use crate::bits::Bits;
use crate::op::TrapCode;
use crate::operations::Evaled;

/// `udiv`.
pub(crate) fn udiv(x: Bits, y: Bits) -> Evaled
    requires { x.width ≡ y.width }
    ensures { evaluation_of result ≡ division divides_by_zero udiv (data_of x ∷ data_of y ∷ []) }
{
    if y.value == 0 {
        Evaled::Trap(TrapCode::IntDivz)
    } else {
        Evaled::One(Bits::new(x.width, x.value / y.value))
    }
}

/// `urem`.
pub(crate) fn urem(x: Bits, y: Bits) -> Evaled
    requires { x.width ≡ y.width }
    ensures { evaluation_of result ≡ division divides_by_zero urem (data_of x ∷ data_of y ∷ []) }
{
    if y.value == 0 {
        Evaled::Trap(TrapCode::IntDivz)
    } else {
        Evaled::One(Bits::new(x.width, x.value % y.value))
    }
}

/// `sdiv`, toward zero.
pub(crate) fn sdiv(x: Bits, y: Bits) -> Evaled
    requires { x.width ≡ y.width }
    ensures { evaluation_of result ≡ division sdiv_trap sdiv (data_of x ∷ data_of y ∷ []) }
{
    if y.value == 0 {
        Evaled::Trap(TrapCode::IntDivz)
    } else if y.value == x.width.greatest() && x.value == x.width.greatest_signed() + 1 {
        Evaled::Trap(TrapCode::IntOvf)
    } else {
        Evaled::One(Bits::wrap(x.width, x.signed() / y.signed()))
    }
}

/// `srem`, with the sign of x.
pub(crate) fn srem(x: Bits, y: Bits) -> Evaled
    requires { x.width ≡ y.width }
    ensures { evaluation_of result ≡ division divides_by_zero srem (data_of x ∷ data_of y ∷ []) }
{
    if y.value == 0 {
        Evaled::Trap(TrapCode::IntDivz)
    } else {
        Evaled::One(Bits::wrap(x.width, x.signed().wrapping_rem(y.signed())))
    }
}
