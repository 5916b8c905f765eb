//! What no clause says: that the definitions are what the text form of CLIF asks for, and that modules are read.

use clif_insts::RawOperands;
use clif_lex::{TextErr, TextKind, Tokens, tokens};
use clif_read::{RawFunction, RawLine, RawModule};
use read_workers::read_raw;
use std::alloc::{AllocError, Global};
use std::test::Fail;
use std::thread::Threads;

/// The module of a text, or its first fault.
pub(crate) fn read<R: Threads + Sync>(
    rt: &R,
    alloc: Global,
    text: &[u8],
) -> Result<RawModule, TextErr> {
    let list = tokens(alloc, text)?;
    read_raw(rt, alloc, text, &list, 1)
}

/// A text with this line as the third, behind four blanks.
fn with_line(alloc: Global, line: &str) -> Result<String, AllocError> {
    format!(in alloc;
        "function %f(i64) -> i64 {{\nblock0(v0: i64):\n    {line}\n    return v0\n}}\n"
    )
}

/// How many values the `return`s of a block have.
fn returned(lines: &[RawLine]) -> usize {
    let mut count: usize = 0;
    for line in lines {
        if let RawLine::Inst { inst, .. } = line {
            if let RawOperands::Return(values) = &inst.operands {
                count = count.saturating_add(values.as_slice().len());
            }
        }
    }
    count
}

/// How many lines the one block of one function has, and how many values their `return`s have.
fn block_counts(functions: &[RawFunction]) -> Option<(usize, usize)> {
    match functions {
        [function] => match function.blocks.as_slice() {
            [block] => {
                let lines = block.lines.as_slice();
                Some((lines.len(), returned(lines)))
            }
            _ => None,
        },
        _ => None,
    }
}

/// How many lines the block of a text with this line has, and how many values their `return`s have.
fn line_counts<R: Threads + Sync>(rt: &R, alloc: Global, line: &str) -> Option<(usize, usize)> {
    let text = with_line(alloc, line).ok()?;
    let found = read(rt, alloc, text.as_bytes()).ok()?;
    block_counts(found.functions.as_slice())
}

#[test]
fn reads_lines(rt: HostRuntime) {
    for &(line, lines, values) in &[
        ("v1 = iconst.i64 1_", 2, 1),
        ("v1 = iconst.i64 1__0", 2, 1),
        ("v1 = iconst.i64 0xf_", 2, 1),
        ("v1 = load.i64 v0 +8", 2, 1),
        ("jump block1()", 2, 1),
        ("v1 -> v0", 2, 1),
        ("v1 = ", 1, 1),
        ("@0a v1, v2 = call fn0()", 2, 1),
        ("@0a <1, ss0> v1 = call fn0()", 2, 1),
        ("<1> call fn0()", 2, 1),
        ("return v0 nop", 3, 2),
        ("return v0 -> v1", 3, 1),
        ("return v0, v1 = call fn0()", 3, 1),
        ("return v0 return v1", 3, 3),
        ("return return", 3, 1),
        ("return v0, v1", 2, 3),
        ("return v0 v1 = nop", 3, 2),
        (
            "try_call fn0(), sig0, block1, [] \
             try_call fn0(), sig0, block1(ret0), [tag1: block2(exn0), default: block2]",
            3,
            1,
        ),
    ] {
        let found = line_counts(&rt, rt.alloc(), line);
        assert!(rt; found == Some((lines, values)), "at {line}");
    }
}

const JOINED: &str = "function %g(i64) -> i64 {
    sig0 = (i64) -> i64
    fn0 = %h sig0
block0(v0: i64):
    try_call fn0(v0), sig0, block1(ret0), [ tag1: block2(exn0) ]
block1(v1: i64):
    return v1
block2(v2: i64):
    return v2
}
function %f(i64) -> i64 {
    sig0 = (i64) -> i64
    fn0 = %g sig0
block0(v0: i64):
    try_call fn0(v0), sig0, block1(ret0), [ tag1: block2(exn0), tag2: block2(exn1), default: block2(exn0) ]
block1(v1: i64):
    return v1
block2(v2: i64):
    return v2
}
";

/// How many of the text's fronts that end behind a token are modules, where the fault of each other is that it ends.
/// Else the end of the first front with another fault.
fn count_modules<R: Threads + Sync>(
    rt: &R,
    alloc: Global,
    text: &[u8],
    list: &Tokens,
) -> Result<usize, usize> {
    let mut modules: usize = 0;
    for i in 0..list.len() {
        let end = list.get(i).end;
        let front = text.get(..end).ok_or(end)?;
        let cut = TextErr::Fault {
            kind: TextKind::Syntax,
            spot: end,
        };
        match read(rt, alloc, front).err() {
            None => modules = modules.saturating_add(1),
            Some(err) if err == cut => {}
            Some(_) => return Err(end),
        }
    }
    Ok(modules)
}

#[test]
fn names_the_end_of_a_cut_text(rt: HostRuntime) -> Result<(), Fail> {
    let bytes = JOINED.as_bytes();
    let whole = tokens(rt.alloc(), bytes)?;
    assert_eq!(rt;
        (whole.len(), count_modules(&rt, rt.alloc(), bytes, &whole)),
        (146, Ok(2))
    );
    Ok(())
}
