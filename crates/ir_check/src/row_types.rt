//! The types of an operation's results, given those of its operands.
ghost use Rattle.std.specs.Prelude.{◌≡◌, [], ◌∷◌, Some, None, if◌then◌else◌};
ghost use Rattle.clk_num.specs.Width.{same, double, half};
ghost use Rattle.clk_num.specs.Rows.{row, up_to_64};
ghost use Rattle.ir_check.specs.RowTypes.{widths_of_row};

use clk_num::{Op, Width};

/// The types of one or two results.
#[derive(Clone, Copy)]
pub enum RowTypes {
    One(Width),
    Two(Width, Width),
}

/// Whether the two types are one.
fn is_same(t: Width, u: Width) -> bool
    ensures { result ≡ same t u }
{
    t.bits() == u.bits()
}

/// Whether the type is not `i128`.
fn is_narrow(t: Width) -> bool
    ensures { result ≡ up_to_64 t }
{
    t.bits() <= 64
}

/// The type of twice the width, up to the widest.
fn double(t: Width) -> Width
    ensures { result ≡ double t }
{
    match t {
        Width::W8 => Width::W16,
        Width::W16 => Width::W32,
        Width::W32 => Width::W64,
        Width::W64 => Width::W128,
        Width::W128 => Width::W128,
    }
}

/// The type of half the width, down to the narrowest.
fn half(t: Width) -> Width
    ensures { result ≡ half t }
{
    match t {
        Width::W8 => Width::W8,
        Width::W16 => Width::W8,
        Width::W32 => Width::W16,
        Width::W64 => Width::W32,
        Width::W128 => Width::W64,
    }
}

/// One result, where the operands are those of the row.
fn one_where(fits: bool, t: Width) -> Option<RowTypes>
    ensures { widths_of_row result ≡ (if fits then Some (t ∷ []) else None) }
{
    if fits { Some(RowTypes::One(t)) } else { None }
}

/// Two results, where the operands are those of the row.
fn two_where(fits: bool, t: Width, u: Width) -> Option<RowTypes>
    ensures { widths_of_row result ≡ (if fits then Some (t ∷ u ∷ []) else None) }
{
    if fits {
        Some(RowTypes::Two(t, u))
    } else {
        None
    }
}

/// The types of the results of an operation on one value of this type.
#[tactic(auto, unfolding(clk_num::specs::Rows::row))]
pub fn find_row_of_one(op: Op, t: Width) -> Option<RowTypes>
    ensures { widths_of_row result ≡ row op (t ∷ []) }
{
    match op {
        Op::Ineg => Some(RowTypes::One(t)),
        Op::Bnot => Some(RowTypes::One(t)),
        Op::Iabs => Some(RowTypes::One(t)),
        Op::Clz => Some(RowTypes::One(t)),
        Op::Ctz => Some(RowTypes::One(t)),
        Op::Popcnt => Some(RowTypes::One(t)),
        Op::Bitrev => Some(RowTypes::One(t)),
        Op::Bswap => one_where(16 <= t.bits(), t),
        Op::Isplit => two_where(16 <= t.bits(), half(t), half(t)),
        Op::Uextend(target) => one_where(t.bits() < target.bits(), target),
        Op::Sextend(target) => one_where(t.bits() < target.bits(), target),
        Op::Ireduce(target) => one_where(target.bits() < t.bits(), target),
        _ => None,
    }
}

/// The types of the results of an operation on two values of these types.
#[tactic(auto, unfolding(clk_num::specs::Rows::row))]
pub fn find_row_of_two(op: Op, t: Width, u: Width) -> Option<RowTypes>
    ensures { widths_of_row result ≡ row op (t ∷ u ∷ []) }
{
    match op {
        Op::Iadd => one_where(is_same(t, u), t),
        Op::Isub => one_where(is_same(t, u), t),
        Op::Imul => one_where(is_same(t, u), t),
        Op::Band => one_where(is_same(t, u), t),
        Op::Bor => one_where(is_same(t, u), t),
        Op::Bxor => one_where(is_same(t, u), t),
        Op::Smin => one_where(is_same(t, u), t),
        Op::Smax => one_where(is_same(t, u), t),
        Op::Umin => one_where(is_same(t, u), t),
        Op::Umax => one_where(is_same(t, u), t),
        Op::Umulhi => one_where(is_same(t, u) && is_narrow(t), t),
        Op::Smulhi => one_where(is_same(t, u) && is_narrow(t), t),
        Op::Udiv => one_where(is_same(t, u) && is_narrow(t), t),
        Op::Urem => one_where(is_same(t, u) && is_narrow(t), t),
        Op::Sdiv => one_where(is_same(t, u) && is_narrow(t), t),
        Op::Srem => one_where(is_same(t, u) && is_narrow(t), t),
        Op::Ishl => Some(RowTypes::One(t)),
        Op::Ushr => Some(RowTypes::One(t)),
        Op::Sshr => Some(RowTypes::One(t)),
        Op::Rotl => Some(RowTypes::One(t)),
        Op::Rotr => Some(RowTypes::One(t)),
        Op::Icmp(_) => one_where(is_same(t, u), Width::W8),
        Op::UaddOverflow => two_where(is_same(t, u), t, Width::W8),
        Op::SaddOverflow => two_where(is_same(t, u), t, Width::W8),
        Op::UsubOverflow => two_where(is_same(t, u), t, Width::W8),
        Op::SsubOverflow => two_where(is_same(t, u), t, Width::W8),
        Op::Iconcat => one_where(is_same(t, u) && is_narrow(t), double(t)),
        _ => None,
    }
}

/// The types of the results of an operation on three values of these types.
#[tactic(auto, unfolding(clk_num::specs::Rows::row))]
pub fn find_row_of_three(op: Op, condition: Width, t: Width, u: Width) -> Option<RowTypes>
    ensures { widths_of_row result ≡ row op (condition ∷ t ∷ u ∷ []) }
{
    match op {
        Op::Select => one_where(is_same(t, u), t),
        _ => None,
    }
}
