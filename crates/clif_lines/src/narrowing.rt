//! Numbers of the text as numbers of a module, where they keep their limits.
ghost use Rattle.std.specs.Prelude.{◌≡◌, IsTrue};
ghost use Rattle.clif_names.specs.declared.limits.Limit.TheVariants.{Entity, SlotSize, Alignment};
ghost use Rattle.clif_names.specs.Limits.{keeps, maybe_number, of_word, trap_limits};
ghost use Rattle.clif_names.specs.declared.limits.Limit.TheVariants.{Offset};
ghost use Rattle.clif_meaning.specs.Instructions.{code_of, natural, offset_of};
ghost use Rattle.clif_lines.specs.Keeping.{AllKeep, Keeps};
ghost use Rattle.clif_meaning.specs.Meaning as spec;

use clif_insts::RawTrap;
use clk_num::TrapCode;
use ir_core::Boxed;
use token_reader::{RawName, RawNumber};

/// The number of a word.
#[inline]
pub fn word_number(name: RawName) -> u32
    requires { Keeps (of_word Entity name) }
    ensures { result ≡ name.number }
{
    name.number as u32
}

/// A number of a name or a tag.
pub fn entity_number(number: RawNumber) -> u32
    requires { IsTrue (keeps Entity number.value) }
    ensures { result ≡ natural number.value }
{
    number.value as u32
}

/// The size of a slot in bytes.
pub fn slot_size(number: RawNumber) -> u32
    requires { IsTrue (keeps SlotSize number.value) }
    ensures { result ≡ natural number.value }
{
    number.value as u32
}

/// The alignment of a slot in bytes: 1 where none is written.
pub fn alignment(number: Option<RawNumber>) -> u32
    requires { AllKeep (maybe_number Alignment number) }
    ensures { result ≡ spec.alignment number }
{
    match number {
        None => 1,
        Some(number) => number.value as u32,
    }
}

/// An offset in bytes: 0 where none is written.
pub fn offset(number: &Option<Boxed<RawNumber>>) -> i32
    requires { AllKeep (maybe_number Offset number.now) }
    ensures { result ≡ offset_of number.now }
{
    match number {
        None => 0,
        Some(number) => number.get().value as i32,
    }
}

/// A trap code.
pub fn trap_code(trap: RawTrap) -> TrapCode
    requires { AllKeep (trap_limits trap) }
    ensures { result ≡ code_of trap }
{
    match trap {
        RawTrap::StkOvf => TrapCode::StkOvf,
        RawTrap::IntOvf => TrapCode::IntOvf,
        RawTrap::HeapOob => TrapCode::HeapOob,
        RawTrap::IntDivz => TrapCode::IntDivz,
        RawTrap::BadToint => TrapCode::BadToint,
        RawTrap::User(number) => TrapCode::User(number.number as u16),
    }
}
