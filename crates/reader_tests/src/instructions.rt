//! What no clause says: that the definitions are what the text form of CLIF asks for, and that instructions are read.

use clif_insts::{Opening, SyntaxErr, inst, read_inst};
use clif_lex::tokens;
use clif_words::{Opcode, list_opcode_rows};
use std::alloc::Global;
use token_reader::{Reader, Stop};

/// The opcode of the instruction that the text begins with, where it stops and how many tokens the text has, or why
/// there is none.
fn first_inst(alloc: Global, text: &str) -> Result<(Opcode, usize, usize), SyntaxErr> {
    let bytes = text.as_bytes();
    let list = tokens(alloc, bytes).or(Err(SyntaxErr::NoMemory))?;
    let count = list.len();
    inst(alloc, bytes, &list, 0).map(|(found, stop)| (found.opcode.kind, stop, count))
}

/// Where the instruction that the text begins with stops, or why there is none.
fn stop_of(alloc: Global, text: &str) -> Result<usize, SyntaxErr> {
    let (_, stop, _) = first_inst(alloc, text)?;
    Ok(stop)
}

#[test]
fn reads_instructions(rt: HostRuntime) {
    for &(text, stop) in &[
        ("nop ; the end", 2),
        ("iadd v0, v1 v2 = nop", 4),
        ("iconst.i64 -5", 4),
        ("load.i32 notrap big aligned v0+8 nop", 8),
        ("load.i32 v0 +8", 5),
        ("trap user18446744073709551616", 2),
        ("jump block1()", 4),
        ("try_call fn0(), sig0, block1, []", 11),
        (
            "try_call fn0(), sig0, block1(ret0, v1), [tag0: block2(exn0), default: block3]",
            26,
        ),
        // the values of a `return`, as far as they are its own
        ("return", 1),
        ("return v0 nop", 2),
        ("return v0, v1 -> v2", 4),
        ("return v0 -> v1", 1),
        ("return v0 = nop", 1),
        ("return v0, v1 = call fn0()", 1),
        ("return ret0", 1),
    ] {
        assert_eq!(rt; stop_of(rt.alloc(), text), Ok(stop), "at {text}");
    }
}

#[test]
fn names_the_first_fault(rt: HostRuntime) {
    for &(text, fault) in &[
        ("", SyntaxErr::Syntax(0)),
        ("iadd v0\nreturn v0", SyntaxErr::Syntax(2)),
        ("return v0,", SyntaxErr::Syntax(3)),
        ("iadd foo", SyntaxErr::Syntax(1)),
        ("func_addr fn0", SyntaxErr::Syntax(1)),
        ("func_addr.i32 fn0", SyntaxErr::Syntax(2)),
        ("load user1 v0", SyntaxErr::Syntax(1)),
        ("load.i32 user01 v0", SyntaxErr::Syntax(3)),
        ("load.i32 little notrap big v0", SyntaxErr::Syntax(5)),
        ("trap foo", SyntaxErr::Syntax(1)),
        ("jump block1(ret0)", SyntaxErr::Syntax(3)),
        ("jump block1(exn0)", SyntaxErr::Syntax(3)),
        (
            "try_call fn0(), sig0, block1(exn0), []",
            SyntaxErr::Syntax(9),
        ),
        (
            "try_call fn0(), sig0, block1, [tag0: block2(ret0)]",
            SyntaxErr::Syntax(14),
        ),
        ("load.i32 big little v0", SyntaxErr::Syntax(4)),
        // a word in the place of an opcode
        ("frob v0", SyntaxErr::UnknownOpcode(0)),
        ("ss0", SyntaxErr::UnknownOpcode(0)),
        ("i32", SyntaxErr::UnknownOpcode(0)),
        ("v01", SyntaxErr::UnknownOpcode(0)),
        ("block1", SyntaxErr::UnknownOpcode(0)),
        // words of CLIF that are left out
        ("fadd v0, v0", SyntaxErr::Unsupported(0)),
        ("iadd.f32 v0, v0", SyntaxErr::Unsupported(2)),
        ("func_addr.f32 fn0", SyntaxErr::Unsupported(2)),
        ("load.i32 user1 v0", SyntaxErr::Unsupported(3)),
        (
            "try_call fn0(), sig0, block1, [context v0]",
            SyntaxErr::Unsupported(10),
        ),
        (
            "try_call fn0(), sig0, block1, [tag0: block2, context v0]",
            SyntaxErr::Unsupported(14),
        ),
    ] {
        assert_eq!(rt; stop_of(rt.alloc(), text), Err(fault), "at {text}");
    }
}

/// Why no instruction begins the text, behind what stands before it.
fn refusal(alloc: Global, text: &str, opening: Opening) -> Option<Stop> {
    let bytes = text.as_bytes();
    let list = tokens(alloc, bytes).ok()?;
    read_inst(alloc, &mut Reader::new(bytes, &list, 0), opening).err()
}

/// Whether nothing stands behind the instruction between two places of the list of the text's tokens, or why there is
/// none.
fn is_alone_between(alloc: Global, text: &str, from: usize, end: usize) -> Result<bool, Stop> {
    let bytes = text.as_bytes();
    let list = tokens(alloc, bytes).or(Err(Stop::NoMemory))?;
    if from > end || end > list.len() {
        return Err(Stop::NoMemory);
    }
    let mut reader = Reader::between(bytes, &list, from, end);
    let found = read_inst(alloc, &mut reader, Opening::AfterResults);
    found.and(Ok(reader.is_at_end()))
}

#[test]
fn reads_between_two_places(rt: HostRuntime) {
    for &(from, end, found) in &[
        (0, 1, Ok(true)),
        (0, 2, Ok(true)),
        (0, 3, Ok(false)),
        (1, 6, Ok(true)),
        (2, 7, Ok(false)),
        (1, 2, Err(Stop::Syntax)),
        (2, 5, Err(Stop::Syntax)),
        (7, 7, Err(Stop::Syntax)),
    ] {
        assert_eq!(rt;
            is_alone_between(rt.alloc(), "nop ; a comment\niadd v0, v1 nop", from, end),
            found,
            "at {from}"
        );
    }
}

#[test]
fn refuses_words_by_what_stands_before(rt: HostRuntime) {
    for &(text, opening, why) in &[
        ("v2", Opening::AfterResults, Stop::UnknownOpcode),
        ("block1", Opening::AfterResults, Stop::UnknownOpcode),
        ("v2", Opening::AfterTags, Stop::Syntax),
        ("block1", Opening::AfterTags, Stop::UnknownOpcode),
        ("v2", Opening::LineStart, Stop::Syntax),
        ("block1", Opening::LineStart, Stop::Syntax),
        ("ss0", Opening::LineStart, Stop::UnknownOpcode),
        ("ret0", Opening::LineStart, Stop::UnknownOpcode),
        ("i32", Opening::LineStart, Stop::UnknownOpcode),
        ("cold", Opening::LineStart, Stop::UnknownOpcode),
        ("function", Opening::LineStart, Stop::UnknownOpcode),
        ("v01", Opening::LineStart, Stop::UnknownOpcode),
        ("fadd", Opening::LineStart, Stop::Unsupported),
        ("}", Opening::LineStart, Stop::Syntax),
    ] {
        assert_eq!(rt; refusal(rt.alloc(), text, opening), Some(why), "at {text}");
    }
}

/// Each opcode once, in the order of their numbers, with each form, each flag and both kinds of trap code.
const EVERY_OPCODE: &str = "\
iconst.i64 -1
iadd v0, v1
isub v0, v1
imul v0, v1
band v0, v1
bor v0, v1
bxor v0, v1
smin v0, v1
smax v0, v1
umin v0, v1
umax v0, v1
umulhi v0, v1
smulhi v0, v1
udiv v0, v1
urem v0, v1
sdiv v0, v1
srem v0, v1
ishl v0, v1
ushr v0, v1
sshr v0, v1
rotl v0, v1
rotr v0, v1
uadd_overflow v0, v1
sadd_overflow v0, v1
usub_overflow v0, v1
ssub_overflow v0, v1
iconcat v0, v1
ineg.i8 v0
bnot.i8 v0
iabs.i8 v0
clz.i8 v0
ctz.i8 v0
popcnt.i8 v0
bitrev.i8 v0
bswap.i8 v0
isplit.i8 v0
icmp slt v0, v1
select.i128 v0, v1, v2
uextend.i32 v0
sextend.i32 v0
ireduce.i32 v0
iadd_imm v0, 0x1f
imul_imm v0, 0x1f
band_imm v0, 0x1f
bor_imm v0, 0x1f
bxor_imm v0, 0x1f
ishl_imm v0, 0x1f
ushr_imm v0, 0x1f
sshr_imm v0, 0x1f
icmp_imm uge v0, +7
load.i32 notrap v0+8
uload8.i32 aligned v0+8
sload8.i32 readonly v0+8
uload16.i32 can_move v0+8
sload16.i32 heap v0+8
uload32 table v0-8
sload32 vmctx v0-8
store little v0, v1+4
istore8 big v0, v1+4
istore16 notrap v0, v1+4
istore32 aligned v0, v1+4
stack_load.i16 ss0+8
stack_store v0, ss0
func_addr.i64 fn0
nop
sequence_point
jump block1()
brif v0, block1, block2(v1, v2)
br_table v0, block1, [block2, block3(v1)]
return v0, v1
trap stk_ovf
trapz v0, user7
trapnz v0, user7
call fn0(v0)
return_call fn0(v0)
try_call fn0(v0), sig0, block1(ret0, v1), [tag0: block2(exn0, exn1), default: block3]
call_indirect sig0, v0(v1, v2)
return_call_indirect sig0, v0(v1, v2)
try_call_indirect.i64 v0(), sig0, block1, []
";

/// The opcode, where the whole text is one instruction.
fn opcode(alloc: Global, text: &str) -> Option<Opcode> {
    match first_inst(alloc, text) {
        Ok((opcode, stop, count)) if stop == count => Some(opcode),
        _ => None,
    }
}

#[test]
fn reads_every_opcode(rt: HostRuntime) {
    let rows = list_opcode_rows();
    let mut number: usize = 0;
    for line in EVERY_OPCODE.lines() {
        let wanted = rows.get(number).map(|row| row.1);
        assert_eq!(rt; opcode(rt.alloc(), line), wanted, "at {line}");
        number = number.saturating_add(1);
    }
    assert_eq!(rt; number, rows.len());
}
