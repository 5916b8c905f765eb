//! What opcodes of the text mean, and the numbers that stand behind them.
ghost use Rattle.std.specs.Prelude.{◌≡◌};
ghost use Rattle.clk_num.specs.Views.{data_of};
ghost use Rattle.ir_text.specs.Writable.{by_zeros};
ghost use Rattle.clif_meaning.specs.Instructions.{constant, immediate};
ghost use Rattle.clif_meaning.specs.Operations as spec;

use clif_words::Opcode;
use clk_num::{Bits, Cc, Op, Width};
use ir_core::{Access, Ty};

/// The operation of an opcode that computes on values, `ty` being the type of its suffix.
pub fn operation(opcode: Opcode, ty: Ty) -> Op
    ensures { result ≡ spec.operation opcode ty }
{
    match opcode {
        Opcode::Iadd | Opcode::IaddImm => Op::Iadd,
        Opcode::Isub => Op::Isub,
        Opcode::Imul | Opcode::ImulImm => Op::Imul,
        Opcode::Band | Opcode::BandImm => Op::Band,
        Opcode::Bor | Opcode::BorImm => Op::Bor,
        Opcode::Bxor | Opcode::BxorImm => Op::Bxor,
        Opcode::Smin => Op::Smin,
        Opcode::Smax => Op::Smax,
        Opcode::Umin => Op::Umin,
        Opcode::Umax => Op::Umax,
        Opcode::Umulhi => Op::Umulhi,
        Opcode::Smulhi => Op::Smulhi,
        Opcode::Udiv => Op::Udiv,
        Opcode::Urem => Op::Urem,
        Opcode::Sdiv => Op::Sdiv,
        Opcode::Srem => Op::Srem,
        Opcode::Ishl | Opcode::IshlImm => Op::Ishl,
        Opcode::Ushr | Opcode::UshrImm => Op::Ushr,
        Opcode::Sshr | Opcode::SshrImm => Op::Sshr,
        Opcode::Rotl => Op::Rotl,
        Opcode::Rotr => Op::Rotr,
        Opcode::UaddOverflow => Op::UaddOverflow,
        Opcode::SaddOverflow => Op::SaddOverflow,
        Opcode::UsubOverflow => Op::UsubOverflow,
        Opcode::SsubOverflow => Op::SsubOverflow,
        Opcode::Iconcat => Op::Iconcat,
        Opcode::Ineg => Op::Ineg,
        Opcode::Bnot => Op::Bnot,
        Opcode::Iabs => Op::Iabs,
        Opcode::Clz => Op::Clz,
        Opcode::Ctz => Op::Ctz,
        Opcode::Popcnt => Op::Popcnt,
        Opcode::Bitrev => Op::Bitrev,
        Opcode::Bswap => Op::Bswap,
        Opcode::Isplit => Op::Isplit,
        Opcode::Select => Op::Select,
        Opcode::Uextend => Op::Uextend(ty.width()),
        Opcode::Sextend => Op::Sextend(ty.width()),
        Opcode::Ireduce => Op::Ireduce(ty.width()),
        _ => Op::Icmp(Cc::Eq),
    }
}

/// What a load reads. One of 32 bits gives an `i64` whatever its suffix.
pub fn access(opcode: Opcode, ty: Ty) -> Access
    ensures { result ≡ spec.access_of opcode ty }
{
    match opcode {
        Opcode::Uload8 => Access::Uload(ty, 1),
        Opcode::Sload8 => Access::Sload(ty, 1),
        Opcode::Uload16 => Access::Uload(ty, 2),
        Opcode::Sload16 => Access::Sload(ty, 2),
        Opcode::Uload32 => Access::Uload(Ty::I64, 4),
        Opcode::Sload32 => Access::Sload(Ty::I64, 4),
        _ => Access::Full(ty),
    }
}

/// The number of bytes that a store writes, where it does not write the whole value.
pub fn stored_bytes(opcode: Opcode) -> Option<u8>
    ensures { result ≡ spec.stored_bytes opcode }
{
    match opcode {
        Opcode::Istore8 => Some(1),
        Opcode::Istore16 => Some(2),
        Opcode::Istore32 => Some(4),
        _ => None,
    }
}

/// The number modulo two to the power of the type's width.
pub fn constant_of(ty: Ty, number: i128) -> Bits
    ensures { data_of result ≡ constant ty number }
{
    Bits::new(ty.width(), number.cast_unsigned())
}

/// Whether the immediate of the operation is extended by zeros.
fn is_by_zeros(op: Op) -> bool
    ensures { result ≡ by_zeros op }
{
    match op {
        Op::Band | Op::Bor | Op::Bxor => true,
        _ => false,
    }
}

/// The number that an immediate form keeps: 64 bits of it, extended to the type's width.
pub fn immediate_of(op: Op, ty: Ty, number: i128) -> Bits
    ensures { data_of result ≡ immediate op ty number }
{
    let low = Bits::new(Width::W64, number.cast_unsigned());
    if is_by_zeros(op) {
        constant_of(ty, low.value() as i128)
    } else {
        constant_of(ty, low.signed())
    }
}
