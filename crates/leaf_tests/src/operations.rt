//! The vectors that bench/eval_vectors.py writes, which has its own integers, against `eval`.
ghost use Rattle.std.specs.Prelude.{◌≤◌};

use crate::narrow_vectors::NARROW;
use crate::wide_vectors::WIDE;
use clk_num::{Bits, Cc, Evaled, Op, TrapCode, Width, eval, fits};
use std::str::SplitWhitespace;

static UNARY: [Op; 21] = [
    Op::Ineg,
    Op::Bnot,
    Op::Iabs,
    Op::Clz,
    Op::Ctz,
    Op::Popcnt,
    Op::Bitrev,
    Op::Bswap,
    Op::Isplit,
    Op::Uextend(Width::W16),
    Op::Uextend(Width::W32),
    Op::Uextend(Width::W64),
    Op::Uextend(Width::W128),
    Op::Sextend(Width::W16),
    Op::Sextend(Width::W32),
    Op::Sextend(Width::W64),
    Op::Sextend(Width::W128),
    Op::Ireduce(Width::W8),
    Op::Ireduce(Width::W16),
    Op::Ireduce(Width::W32),
    Op::Ireduce(Width::W64),
];

static BINARY: [Op; 31] = [
    Op::Iadd,
    Op::Isub,
    Op::Imul,
    Op::Band,
    Op::Bor,
    Op::Bxor,
    Op::Smin,
    Op::Smax,
    Op::Umin,
    Op::Umax,
    Op::Umulhi,
    Op::Smulhi,
    Op::Udiv,
    Op::Urem,
    Op::Sdiv,
    Op::Srem,
    Op::UaddOverflow,
    Op::SaddOverflow,
    Op::UsubOverflow,
    Op::SsubOverflow,
    Op::Iconcat,
    Op::Icmp(Cc::Eq),
    Op::Icmp(Cc::Ne),
    Op::Icmp(Cc::Slt),
    Op::Icmp(Cc::Sge),
    Op::Icmp(Cc::Sgt),
    Op::Icmp(Cc::Sle),
    Op::Icmp(Cc::Ult),
    Op::Icmp(Cc::Uge),
    Op::Icmp(Cc::Ugt),
    Op::Icmp(Cc::Ule),
];

static SHIFTS: [Op; 5] = [Op::Ishl, Op::Ushr, Op::Sshr, Op::Rotl, Op::Rotr];

static SELECT: [Op; 1] = [Op::Select];

/// The letter before the digits of a value of each width.
static LETTERS: [(char, Width); 5] = [
    ('B', Width::W8),
    ('H', Width::W16),
    ('W', Width::W32),
    ('D', Width::W64),
    ('Q', Width::W128),
];

/// The value that a word stands for.
fn value(word: &str) -> Option<Bits> {
    for (letter, width) in LETTERS.iter() {
        if let Some(digits) = word.strip_prefix(*letter) {
            let value = u128::from_str_radix(digits, 16).ok()?;
            return Some(Bits::new(*width, value));
        }
    }
    None
}

/// The one or two values that a word stands for.
fn values(word: &str) -> Option<Evaled> {
    match word.split_once(',') {
        Some((first, second)) => Some(Evaled::Two(value(first)?, value(second)?)),
        None => Some(Evaled::One(value(word)?)),
    }
}

/// The result that a word stands for.
fn wanted(word: &str) -> Option<Evaled> {
    match word {
        "!z" => Some(Evaled::Trap(TrapCode::IntDivz)),
        "!o" => Some(Evaled::Trap(TrapCode::IntOvf)),
        _ => values(word),
    }
}

/// Whether the operation gives on these operands what the word says.
fn agrees(op: Op, args: &[Bits], word: &str) -> bool {
    if fits(op, args) {
        wanted(word) == Some(eval(op, args))
    } else {
        word == "-"
    }
}

/// The operations that a line of this kind has results of, and how many operands they take.
fn operations(kind: &str) -> (&'static [Op], usize)
    ensures { result.1 ≤ 3 }
{
    match kind {
        "u" => (UNARY.as_slice(), 1),
        "b" => (BINARY.as_slice(), 2),
        "t" => (SELECT.as_slice(), 3),
        _ => (SHIFTS.as_slice(), 2),
    }
}

/// How many operations there are, where each agrees with its word and no word is left.
fn agreeing_words(ops: &[Op], args: &[Bits], words: &mut SplitWhitespace) -> Option<u32> {
    let mut cases: u32 = 0;
    for op in ops {
        if !agrees(*op, args, words.next()?) {
            return None;
        }
        cases = cases.wrapping_add(1);
    }
    match words.next() {
        Some(_) => None,
        None => Some(cases),
    }
}

/// Takes a value from each of the next words.
fn take_values(words: &mut SplitWhitespace, values: &mut [Bits]) -> Option<()> {
    for place in values {
        *place = value(words.next()?)?;
    }
    Some(())
}

/// How many cases the line has, where each agrees.
fn agreeing(line: &str) -> Option<u32> {
    let mut words = line.split_whitespace();
    let (ops, count) = operations(words.next()?);
    let mut args = [Bits::new(Width::W8, 0); 3];
    take_values(&mut words, &mut args[..count])?;
    agreeing_words(ops, &args[..count], &mut words)
}

/// How many cases the lines have, where each agrees; else the first line that does not.
fn agreeing_lines(lines: &str) -> Result<u32, &str> {
    let mut cases: u32 = 0;
    for line in lines.lines() {
        let Some(agreed) = agreeing(line) else {
            return Err(line);
        };
        cases = cases.wrapping_add(agreed);
    }
    Ok(cases)
}

/// The lines of i8, i16 and i32. A proof takes long to step past so long a text, so that no function does more with it.
fn narrow() -> &'static str {
    NARROW
}

/// The lines of i64 and i128, which stand alone for the same reason.
fn wide() -> &'static str {
    WIDE
}

#[test]
fn eval_gives_what_python_gives(rt: HostRuntime) {
    let mut cases: u32 = 0;
    for lines in [narrow(), wide()] {
        match agreeing_lines(lines) {
            Ok(agreed) => cases = cases.wrapping_add(agreed),
            Err(line) => assert!(rt; false, "at {line}"),
        }
    }
    assert_eq!(rt; cases, 4152);
}
