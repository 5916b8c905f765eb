//! Which operands an operation takes.
ghost use Rattle.std.specs.Prelude.{◌≡◌, ◌&&◌, [], ◌∷◌, is_some};
ghost use Rattle.clk_num.specs.Width.{same};
ghost use Rattle.clk_num.specs.Rows.{row, up_to_64};
ghost use Rattle.clk_num.specs.Operations.{widths};
ghost use Rattle.clk_num.specs.Views.{data_of_all};

use crate::bits::Bits;
use crate::op::Op;
use crate::width::Width;

/// Whether the operands are those of the operation's row: their number, and their types. It is what `eval` asks.
pub fn fits(op: Op, args: &[Bits]) -> bool
    ensures { result ≡ is_some (row op (widths (data_of_all args.now))) }
{
    match args {
        [x] => fits_one(op, x.width),
        [x, y] => fits_two(op, x.width, y.width),
        [condition, x, y] => fits_three(op, condition.width, x.width, y.width),
        _ => false,
    }
}

/// Whether the two types are one.
fn same(t: Width, u: Width) -> bool
    ensures { result ≡ same t u }
{
    t.bits() == u.bits()
}

/// Whether the two types are one, and not `i128`.
fn same_narrow(t: Width, u: Width) -> bool
    ensures { result ≡ (same t u && up_to_64 t) }
{
    t.bits() == u.bits() && t.bits() <= 64
}

/// Whether the operation takes one value of this type.
fn fits_one(op: Op, t: Width) -> bool
    ensures { result ≡ is_some (row op (t ∷ [])) }
{
    match op {
        Op::Ineg => true,
        Op::Bnot => true,
        Op::Iabs => true,
        Op::Clz => true,
        Op::Ctz => true,
        Op::Popcnt => true,
        Op::Bitrev => true,
        Op::Bswap => t.bits() >= 16,
        Op::Isplit => t.bits() >= 16,
        Op::Uextend(target) => t.bits() < target.bits(),
        Op::Sextend(target) => t.bits() < target.bits(),
        Op::Ireduce(target) => target.bits() < t.bits(),
        _ => false,
    }
}

/// Whether the operation takes two values of these types.
fn fits_two(op: Op, t: Width, u: Width) -> bool
    ensures { result ≡ is_some (row op (t ∷ u ∷ [])) }
{
    match op {
        Op::Iadd => same(t, u),
        Op::Isub => same(t, u),
        Op::Imul => same(t, u),
        Op::Band => same(t, u),
        Op::Bor => same(t, u),
        Op::Bxor => same(t, u),
        Op::Smin => same(t, u),
        Op::Smax => same(t, u),
        Op::Umin => same(t, u),
        Op::Umax => same(t, u),
        Op::Umulhi => same_narrow(t, u),
        Op::Smulhi => same_narrow(t, u),
        Op::Udiv => same_narrow(t, u),
        Op::Urem => same_narrow(t, u),
        Op::Sdiv => same_narrow(t, u),
        Op::Srem => same_narrow(t, u),
        Op::Ishl => true,
        Op::Ushr => true,
        Op::Sshr => true,
        Op::Rotl => true,
        Op::Rotr => true,
        Op::Icmp(_) => same(t, u),
        Op::UaddOverflow => same(t, u),
        Op::SaddOverflow => same(t, u),
        Op::UsubOverflow => same(t, u),
        Op::SsubOverflow => same(t, u),
        Op::Iconcat => same_narrow(t, u),
        _ => false,
    }
}

/// Whether the operation takes three values of these types.
fn fits_three(op: Op, condition: Width, t: Width, u: Width) -> bool
    ensures { result ≡ is_some (row op (condition ∷ t ∷ u ∷ [])) }
{
    match op {
        Op::Select => same(t, u),
        _ => false,
    }
}
