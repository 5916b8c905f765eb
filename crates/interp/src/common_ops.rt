//! The operations that loops are mostly made of.
ghost use Rattle.std.specs.Prelude.{◌≡◌, ◌∷◌, [], IfSome};
ghost use Rattle.clk_num.specs.Operations.{operation, Values};
ghost use Rattle.clk_num.specs.Views.{data_of};

use clk_num::{Bits, Op};

/// A sum, a difference, a product or an operation bit by bit of two values of one type, by one match and no row's test.
/// None of other operands, and of other operations, which `eval` computes. It is there for speed alone.
pub fn eval_common(op: Op, x: Bits, y: Bits) -> Option<Bits>
    ensures { IfSome result (λ z. Values (data_of z ∷ []) ≡ operation op (data_of x ∷ data_of y ∷ [])) }
{
    if x.width.bits() != y.width.bits() {
        return None;
    }
    match op {
        Op::Iadd => Some(Bits::new(x.width, x.value.wrapping_add(y.value))),
        Op::Isub => Some(Bits::new(x.width, x.value.wrapping_sub(y.value))),
        Op::Imul => Some(Bits::new(x.width, x.value.wrapping_mul(y.value))),
        Op::Band => Some(Bits::new(x.width, x.value & y.value)),
        Op::Bor => Some(Bits::new(x.width, x.value | y.value)),
        Op::Bxor => Some(Bits::new(x.width, x.value ^ y.value)),
        _ => None,
    }
}
