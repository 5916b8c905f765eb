//! The opcodes in one table, for reader, checker and printer: how each is spelled, the class of its form, and the
//! opcode of its form with an immediate.

ghost use Rattle.std.specs.Prelude.{◌≡◌, map};
ghost use Rattle.clif_words.specs.declared.opcodes.OpcodeRow.{OpcodeRow};
ghost use Rattle.clif_words.specs.Table as table;
ghost use Rattle.clif_words.specs.Opcodes as spec;
ghost use Rattle.clif_words.specs.Printed as printed;
ghost use Rattle.clif_words.specs.OpcodeForms.{form};
ghost use Rattle.clif_words.specs.Seen as seen;

use crate::class::Class;
use clk_num::Op;

/// An opcode of CLIF that is read and printed.
#[derive(Clone, Copy, Debug, PartialEq, Eq)]
pub enum Opcode {
    Iconst,
    Iadd,
    Isub,
    Imul,
    Band,
    Bor,
    Bxor,
    Smin,
    Smax,
    Umin,
    Umax,
    Umulhi,
    Smulhi,
    Udiv,
    Urem,
    Sdiv,
    Srem,
    Ishl,
    Ushr,
    Sshr,
    Rotl,
    Rotr,
    UaddOverflow,
    SaddOverflow,
    UsubOverflow,
    SsubOverflow,
    Iconcat,
    Ineg,
    Bnot,
    Iabs,
    Clz,
    Ctz,
    Popcnt,
    Bitrev,
    Bswap,
    Isplit,
    Icmp,
    Select,
    Uextend,
    Sextend,
    Ireduce,
    IaddImm,
    ImulImm,
    BandImm,
    BorImm,
    BxorImm,
    IshlImm,
    UshrImm,
    SshrImm,
    IcmpImm,
    Load,
    Uload8,
    Sload8,
    Uload16,
    Sload16,
    Uload32,
    Sload32,
    Store,
    Istore8,
    Istore16,
    Istore32,
    StackLoad,
    StackStore,
    FuncAddr,
    Nop,
    SequencePoint,
    Jump,
    Brif,
    BrTable,
    Return,
    Trap,
    Trapz,
    Trapnz,
    Call,
    ReturnCall,
    TryCall,
    CallIndirect,
    ReturnCallIndirect,
    TryCallIndirect,
}

impl Opcode {
    /// That of an operation on values.
    pub fn of(op: Op) -> Opcode
        ensures { result ≡ printed.value_opcode op }
    {
        match op {
            Op::Iadd => Opcode::Iadd,
            Op::Isub => Opcode::Isub,
            Op::Imul => Opcode::Imul,
            Op::Band => Opcode::Band,
            Op::Bor => Opcode::Bor,
            Op::Bxor => Opcode::Bxor,
            Op::Smin => Opcode::Smin,
            Op::Smax => Opcode::Smax,
            Op::Umin => Opcode::Umin,
            Op::Umax => Opcode::Umax,
            Op::Umulhi => Opcode::Umulhi,
            Op::Smulhi => Opcode::Smulhi,
            Op::Udiv => Opcode::Udiv,
            Op::Urem => Opcode::Urem,
            Op::Sdiv => Opcode::Sdiv,
            Op::Srem => Opcode::Srem,
            Op::Ishl => Opcode::Ishl,
            Op::Ushr => Opcode::Ushr,
            Op::Sshr => Opcode::Sshr,
            Op::Rotl => Opcode::Rotl,
            Op::Rotr => Opcode::Rotr,
            Op::UaddOverflow => Opcode::UaddOverflow,
            Op::SaddOverflow => Opcode::SaddOverflow,
            Op::UsubOverflow => Opcode::UsubOverflow,
            Op::SsubOverflow => Opcode::SsubOverflow,
            Op::Iconcat => Opcode::Iconcat,
            Op::Ineg => Opcode::Ineg,
            Op::Bnot => Opcode::Bnot,
            Op::Iabs => Opcode::Iabs,
            Op::Clz => Opcode::Clz,
            Op::Ctz => Opcode::Ctz,
            Op::Popcnt => Opcode::Popcnt,
            Op::Bitrev => Opcode::Bitrev,
            Op::Bswap => Opcode::Bswap,
            Op::Isplit => Opcode::Isplit,
            Op::Icmp(_) => Opcode::Icmp,
            Op::Select => Opcode::Select,
            Op::Uextend(_) => Opcode::Uextend,
            Op::Sextend(_) => Opcode::Sextend,
            Op::Ireduce(_) => Opcode::Ireduce,
        }
    }

    /// That of an operation with an immediate, where there is one.
    pub fn of_immediate(op: Op) -> Option<Opcode>
        ensures { result ≡ printed.immediate_opcode op }
    {
        Opcode::of(op).row().3
    }

    /// Its place in the table.
    #[inline]
    fn place(self) -> usize
        ensures { result ≡ spec.place self }
    {
        self as usize
    }

    /// Its row of the table.
    #[inline]
    fn row(self) -> &'static OpcodeRow
        ensures spelling { result.now.0.now ≡ spec.word self }
        ensures form { result.now.2 ≡ form self }
        ensures immediate { result.now.3 ≡ spec.with_immediate self }
    {
        &list_opcode_rows()[self.place()]
    }

    /// How it is spelled.
    #[inline]
    pub fn spelling(self) -> &'static str
        ensures { result.now ≡ spec.word self }
    {
        self.row().0
    }

    /// The class of the words of its form.
    #[inline]
    pub fn form(self) -> Class
        ensures { result ≡ form self }
    {
        self.row().2
    }
}

/// A row of the table: how an opcode is spelled, which one it is, the class of the words of its form, and, of an
/// operation that has a form with an immediate, the opcode of that form.
#[derive(Clone, Copy)]
pub struct OpcodeRow(pub &'static str, pub Opcode, pub Class, pub Option<Opcode>);

/// The opcodes, grouped by form.
pub const OPCODES: [OpcodeRow; 79] = [
    OpcodeRow("iconst", Opcode::Iconst, Class::Iconst, None),
    OpcodeRow("iadd", Opcode::Iadd, Class::Binary, Some(Opcode::IaddImm)),
    OpcodeRow("isub", Opcode::Isub, Class::Binary, None),
    OpcodeRow("imul", Opcode::Imul, Class::Binary, Some(Opcode::ImulImm)),
    OpcodeRow("band", Opcode::Band, Class::Binary, Some(Opcode::BandImm)),
    OpcodeRow("bor", Opcode::Bor, Class::Binary, Some(Opcode::BorImm)),
    OpcodeRow("bxor", Opcode::Bxor, Class::Binary, Some(Opcode::BxorImm)),
    OpcodeRow("smin", Opcode::Smin, Class::Binary, None),
    OpcodeRow("smax", Opcode::Smax, Class::Binary, None),
    OpcodeRow("umin", Opcode::Umin, Class::Binary, None),
    OpcodeRow("umax", Opcode::Umax, Class::Binary, None),
    OpcodeRow("umulhi", Opcode::Umulhi, Class::Binary, None),
    OpcodeRow("smulhi", Opcode::Smulhi, Class::Binary, None),
    OpcodeRow("udiv", Opcode::Udiv, Class::Binary, None),
    OpcodeRow("urem", Opcode::Urem, Class::Binary, None),
    OpcodeRow("sdiv", Opcode::Sdiv, Class::Binary, None),
    OpcodeRow("srem", Opcode::Srem, Class::Binary, None),
    OpcodeRow("ishl", Opcode::Ishl, Class::Binary, Some(Opcode::IshlImm)),
    OpcodeRow("ushr", Opcode::Ushr, Class::Binary, Some(Opcode::UshrImm)),
    OpcodeRow("sshr", Opcode::Sshr, Class::Binary, Some(Opcode::SshrImm)),
    OpcodeRow("rotl", Opcode::Rotl, Class::Binary, None),
    OpcodeRow("rotr", Opcode::Rotr, Class::Binary, None),
    OpcodeRow("uadd_overflow", Opcode::UaddOverflow, Class::Binary, None),
    OpcodeRow("sadd_overflow", Opcode::SaddOverflow, Class::Binary, None),
    OpcodeRow("usub_overflow", Opcode::UsubOverflow, Class::Binary, None),
    OpcodeRow("ssub_overflow", Opcode::SsubOverflow, Class::Binary, None),
    OpcodeRow("iconcat", Opcode::Iconcat, Class::Binary, None),
    OpcodeRow("ineg", Opcode::Ineg, Class::Unary, None),
    OpcodeRow("bnot", Opcode::Bnot, Class::Unary, None),
    OpcodeRow("iabs", Opcode::Iabs, Class::Unary, None),
    OpcodeRow("clz", Opcode::Clz, Class::Unary, None),
    OpcodeRow("ctz", Opcode::Ctz, Class::Unary, None),
    OpcodeRow("popcnt", Opcode::Popcnt, Class::Unary, None),
    OpcodeRow("bitrev", Opcode::Bitrev, Class::Unary, None),
    OpcodeRow("bswap", Opcode::Bswap, Class::Unary, None),
    OpcodeRow("isplit", Opcode::Isplit, Class::Unary, None),
    OpcodeRow("icmp", Opcode::Icmp, Class::Icmp, Some(Opcode::IcmpImm)),
    OpcodeRow("select", Opcode::Select, Class::Select, None),
    OpcodeRow("uextend", Opcode::Uextend, Class::Convert, None),
    OpcodeRow("sextend", Opcode::Sextend, Class::Convert, None),
    OpcodeRow("ireduce", Opcode::Ireduce, Class::Convert, None),
    OpcodeRow("iadd_imm", Opcode::IaddImm, Class::BinaryImm, None),
    OpcodeRow("imul_imm", Opcode::ImulImm, Class::BinaryImm, None),
    OpcodeRow("band_imm", Opcode::BandImm, Class::BinaryImm, None),
    OpcodeRow("bor_imm", Opcode::BorImm, Class::BinaryImm, None),
    OpcodeRow("bxor_imm", Opcode::BxorImm, Class::BinaryImm, None),
    OpcodeRow("ishl_imm", Opcode::IshlImm, Class::BinaryImm, None),
    OpcodeRow("ushr_imm", Opcode::UshrImm, Class::BinaryImm, None),
    OpcodeRow("sshr_imm", Opcode::SshrImm, Class::BinaryImm, None),
    OpcodeRow("icmp_imm", Opcode::IcmpImm, Class::IcmpImm, None),
    OpcodeRow("load", Opcode::Load, Class::Load, None),
    OpcodeRow("uload8", Opcode::Uload8, Class::Load, None),
    OpcodeRow("sload8", Opcode::Sload8, Class::Load, None),
    OpcodeRow("uload16", Opcode::Uload16, Class::Load, None),
    OpcodeRow("sload16", Opcode::Sload16, Class::Load, None),
    OpcodeRow("uload32", Opcode::Uload32, Class::LoadWide, None),
    OpcodeRow("sload32", Opcode::Sload32, Class::LoadWide, None),
    OpcodeRow("store", Opcode::Store, Class::Store, None),
    OpcodeRow("istore8", Opcode::Istore8, Class::Store, None),
    OpcodeRow("istore16", Opcode::Istore16, Class::Store, None),
    OpcodeRow("istore32", Opcode::Istore32, Class::Store, None),
    OpcodeRow("stack_load", Opcode::StackLoad, Class::StackLoad, None),
    OpcodeRow("stack_store", Opcode::StackStore, Class::StackStore, None),
    OpcodeRow("func_addr", Opcode::FuncAddr, Class::FuncAddr, None),
    OpcodeRow("nop", Opcode::Nop, Class::Nullary, None),
    OpcodeRow(
        "sequence_point",
        Opcode::SequencePoint,
        Class::Nullary,
        None,
    ),
    OpcodeRow("jump", Opcode::Jump, Class::Jump, None),
    OpcodeRow("brif", Opcode::Brif, Class::Brif, None),
    OpcodeRow("br_table", Opcode::BrTable, Class::BrTable, None),
    OpcodeRow("return", Opcode::Return, Class::Return, None),
    OpcodeRow("trap", Opcode::Trap, Class::Trap, None),
    OpcodeRow("trapz", Opcode::Trapz, Class::TrapIf, None),
    OpcodeRow("trapnz", Opcode::Trapnz, Class::TrapIf, None),
    OpcodeRow("call", Opcode::Call, Class::Call, None),
    OpcodeRow("return_call", Opcode::ReturnCall, Class::Call, None),
    OpcodeRow("try_call", Opcode::TryCall, Class::TryCall, None),
    OpcodeRow(
        "call_indirect",
        Opcode::CallIndirect,
        Class::CallIndirect,
        None,
    ),
    OpcodeRow(
        "return_call_indirect",
        Opcode::ReturnCallIndirect,
        Class::CallIndirect,
        None,
    ),
    OpcodeRow(
        "try_call_indirect",
        Opcode::TryCallIndirect,
        Class::TryCallIndirect,
        None,
    ),
];

/// The table of opcodes. Its rows are those by which the reader knows the words of opcodes, and a row's number is its
/// place.
pub fn list_opcode_rows() -> &'static [OpcodeRow]
    ensures words { map seen.opcode_row result.now ≡ table.numbered_through 0 table.opcodes }
    ensures opcodes { map (λ (row : OpcodeRow). row.1) result.now ≡ spec.all_opcodes }
    ensures spelled { map (λ (row : OpcodeRow). row.0.now) result.now ≡ map spec.word spec.all_opcodes }
    ensures forms { map (λ (row : OpcodeRow). row.2) result.now ≡ map form spec.all_opcodes }
    ensures immediates { map (λ (row : OpcodeRow). row.3) result.now ≡ map spec.with_immediate spec.all_opcodes }
{
    &OPCODES
}
