//! The words.
ghost use Rattle.std.specs.Prelude.{◌≡◌};
ghost use Rattle.ir_text.specs.Words.{condition_word, type_word, convention_word};
ghost use Rattle.clif_words.specs.Opcodes.{word};
ghost use Rattle.text_output.specs.Output.{Start, Puts};

use clif_words::Opcode;
use clk_num::Cc;
use ir_core::{Conv, Ty};
use text_output::Output;

/// Puts the word of an opcode, from the table of opcodes.
pub(crate) fn put_opcode<O: Output>(out: &mut O, opcode: Opcode)
    ensures { Puts O.holds out.old out.new (word opcode) }
{
    out.put(opcode.spelling().as_bytes());
}

/// The condition of a comparison.
pub(crate) fn condition_word(condition: Cc) -> &'static [u8]
    ensures { result.now ≡ condition_word condition }
{
    match condition {
        Cc::Eq => b"eq",
        Cc::Ne => b"ne",
        Cc::Slt => b"slt",
        Cc::Sge => b"sge",
        Cc::Sgt => b"sgt",
        Cc::Sle => b"sle",
        Cc::Ult => b"ult",
        Cc::Uge => b"uge",
        Cc::Ugt => b"ugt",
        Cc::Ule => b"ule",
    }
}

/// A type.
pub(crate) fn type_word(ty: Ty) -> &'static [u8]
    ensures { result.now ≡ type_word ty }
{
    match ty {
        Ty::I8 => b"i8",
        Ty::I16 => b"i16",
        Ty::I32 => b"i32",
        Ty::I64 => b"i64",
        Ty::I128 => b"i128",
    }
}

/// A calling convention.
pub(crate) fn convention_word(convention: Conv) -> &'static [u8]
    ensures { result.now ≡ convention_word convention }
{
    match convention {
        Conv::Fast => b"fast",
        Conv::Cold => b"cold",
        Conv::Tail => b"tail",
        Conv::SystemV => b"system_v",
        Conv::WindowsFastcall => b"windows_fastcall",
        Conv::AppleAarch64 => b"apple_aarch64",
        Conv::Probestack => b"probestack",
        Conv::Winch => b"winch",
    }
}
