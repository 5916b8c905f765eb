//! What an operation gives.
ghost use Rattle.std.specs.Prelude.{◌≡◌, [], ◌∷◌};
ghost use Rattle.clk_num.specs.Rows.{Fits};
ghost use Rattle.clk_num.specs.Operations.{widths, meaning, operation};
ghost use Rattle.clk_num.specs.Views.{data_of, data_of_all, evaluation_of};

use crate::arithmetic::{
    iabs, iadd, imul, ineg, isub, sadd_overflows, smax, smin, smulhi, ssub_overflows,
    uadd_overflows, umax, umin, umulhi, usub_overflows,
};
use crate::bits::Bits;
use crate::bitwise::{band, bitrev, bnot, bor, bswap, bxor, clz, ctz, popcnt};
use crate::conversions::{
    compare, flag, high_half, iconcat, ireduce, low_half, select, sextend, uextend,
};
use crate::division::{sdiv, srem, udiv, urem};
use crate::op::{Op, TrapCode};
use crate::shifts::{ishl, rotl, rotr, sshr, ushr};

/// The result of an operation: one value, two values, or a trap.
#[derive(Clone, Copy, PartialEq, Eq)]
pub enum Evaled {
    One(Bits),
    Two(Bits, Bits),
    Trap(TrapCode),
}

/// What the operation gives on operands of its row. It takes no memory.
pub fn eval(op: Op, args: &[Bits]) -> Evaled
    requires { Fits op (widths (data_of_all args.now)) }
    ensures { evaluation_of result ≡ operation op (data_of_all args.now) }
{
    match args {
        [x] => unary(op, *x),
        [x, y] => binary(op, *x, *y),
        [condition, x, y] => Evaled::One(select(*condition, *x, *y)),
        _ => unreachable!(),
    }
}

/// An operation on one value.
fn unary(op: Op, x: Bits) -> Evaled
    requires { Fits op (x.width ∷ []) }
    ensures { evaluation_of result ≡ meaning op (data_of x ∷ []) }
{
    match op {
        Op::Ineg => Evaled::One(ineg(x)),
        Op::Bnot => Evaled::One(bnot(x)),
        Op::Iabs => Evaled::One(iabs(x)),
        Op::Clz => Evaled::One(clz(x)),
        Op::Ctz => Evaled::One(ctz(x)),
        Op::Popcnt => Evaled::One(popcnt(x)),
        Op::Bitrev => Evaled::One(bitrev(x)),
        Op::Bswap => Evaled::One(bswap(x)),
        Op::Uextend(target) => Evaled::One(uextend(target, x)),
        Op::Sextend(target) => Evaled::One(sextend(target, x)),
        Op::Ireduce(target) => Evaled::One(ireduce(target, x)),
        Op::Isplit => Evaled::Two(low_half(x), high_half(x)),
        _ => unreachable!(),
    }
}

/// An operation on two values.
fn binary(op: Op, x: Bits, y: Bits) -> Evaled
    requires { Fits op (x.width ∷ y.width ∷ []) }
    ensures { evaluation_of result ≡ meaning op (data_of x ∷ data_of y ∷ []) }
{
    match op {
        Op::Iadd => Evaled::One(iadd(x, y)),
        Op::Isub => Evaled::One(isub(x, y)),
        Op::Imul => Evaled::One(imul(x, y)),
        Op::Band => Evaled::One(band(x, y)),
        Op::Bor => Evaled::One(bor(x, y)),
        Op::Bxor => Evaled::One(bxor(x, y)),
        Op::Smin => Evaled::One(smin(x, y)),
        Op::Smax => Evaled::One(smax(x, y)),
        Op::Umin => Evaled::One(umin(x, y)),
        Op::Umax => Evaled::One(umax(x, y)),
        Op::Umulhi => Evaled::One(umulhi(x, y)),
        Op::Smulhi => Evaled::One(smulhi(x, y)),
        Op::Udiv => udiv(x, y),
        Op::Urem => urem(x, y),
        Op::Sdiv => sdiv(x, y),
        Op::Srem => srem(x, y),
        Op::Ishl => Evaled::One(ishl(x, y)),
        Op::Ushr => Evaled::One(ushr(x, y)),
        Op::Sshr => Evaled::One(sshr(x, y)),
        Op::Rotl => Evaled::One(rotl(x, y)),
        Op::Rotr => Evaled::One(rotr(x, y)),
        Op::Icmp(cc) => Evaled::One(flag(compare(cc, x, y))),
        Op::UaddOverflow => Evaled::Two(iadd(x, y), flag(uadd_overflows(x, y))),
        Op::SaddOverflow => Evaled::Two(iadd(x, y), flag(sadd_overflows(x, y))),
        Op::UsubOverflow => Evaled::Two(isub(x, y), flag(usub_overflows(x, y))),
        Op::SsubOverflow => Evaled::Two(isub(x, y), flag(ssub_overflows(x, y))),
        Op::Iconcat => Evaled::One(iconcat(x, y)),
        _ => unreachable!(),
    }
}
