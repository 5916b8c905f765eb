//! What no clause says: that a text is read in stretches, whatever the number of workers and the size of a stretch.

use crate::modules::read;
use clif_lex::{TextErr, tokens};
use clif_read::RawModule;
use read_workers::{read_raw_by, read_text, read_text_by, read_text_ranges, read_token_ranges};
use std::alloc::{AllocError, Global};
use std::thread::Threads;

const WORKERS: [usize; 3] = [1, 2, 5];

const SIZES: [usize; 3] = [1, 70, 1000];

/// How many tokens a stretch of a list takes.
const RANGE_SIZES: [usize; 4] = [0, 1, 20, 1000];

/// A header, comments and three functions, of which each has one of these lines.
fn text_of(alloc: Global, first: &str, second: &str, third: &str) -> Result<String, AllocError> {
    format!(in alloc;
        "; first\ntest compile\nfunction %a() {{\nblock0:\n    {first}\n    return\n}}\n; second\n\
        function %b(i64) -> i64 {{\nblock0(v0: i64):\n    {second}\n    return v0\n}}\nfunction %c() {{\n\
        block0:\n    {third}\n    trap int_ovf\n}}\n; last\n"
    )
}

/// A header, comments and three functions, of which the second has this line.
fn text_with(alloc: Global, line: &str) -> Result<String, AllocError> {
    text_of(alloc, "nop", line, "nop")
}

/// How many headers and functions a module has.
fn counts(found: RawModule) -> (usize, usize) {
    (
        found.headers.as_slice().len(),
        found.functions.as_slice().len(),
    )
}

/// Whether a text is read in stretches of any size, as one header and three functions.
fn is_read_in_stretches<R: Threads + Sync>(rt: &R, alloc: Global, text: &[u8]) -> bool {
    for &workers in &WORKERS {
        for &size in &SIZES {
            let found = read_text_ranges(rt, alloc, text, workers, size);
            if found.map(counts) != Some((1, 3)) {
                return false;
            }
        }
    }
    true
}

#[test]
fn reads_in_stretches(rt: HostRuntime) -> Result<(), AllocError> {
    let text = text_with(rt.alloc(), "v1 = iadd v0, v0")?;
    assert!(rt; is_read_in_stretches(&rt, rt.alloc(), text.as_bytes()));
    assert!(rt; read_text(&rt, rt.alloc(), text.as_bytes(), 4).is_ok());
    Ok(())
}

/// Whether a text has the same fault, in stretches of any size, as where it is read whole.
fn is_refused_alike<R: Threads + Sync>(rt: &R, alloc: Global, text: &[u8]) -> bool {
    let wanted = read(rt, alloc, text).err();
    for &workers in &WORKERS {
        for &size in &SIZES {
            let found = read_text_by(rt, alloc, text, workers, size);
            if found.err() != wanted {
                return false;
            }
        }
    }
    wanted.is_some()
}

#[test]
fn finds_the_first_fault(rt: HostRuntime) -> Result<(), AllocError> {
    let text = text_with(rt.alloc(), "v1 = frob v0")?;
    assert!(rt; is_refused_alike(&rt, rt.alloc(), text.as_bytes()));
    Ok(())
}

/// How many headers and functions are read in ranges of a text's tokens.
fn counts_in_token_ranges<R: Threads + Sync>(
    rt: &R,
    alloc: Global,
    text: &[u8],
    workers: usize,
    size: usize,
) -> Option<(usize, usize)> {
    let list = tokens(alloc, text).ok()?;
    read_token_ranges(rt, alloc, text, &list, workers, size).map(counts)
}

/// Whether a text is read in ranges of its tokens of any size, as one header and three functions.
fn is_read_in_token_ranges<R: Threads + Sync>(rt: &R, alloc: Global, text: &[u8]) -> bool {
    for &workers in &WORKERS {
        for &size in &RANGE_SIZES {
            if counts_in_token_ranges(rt, alloc, text, workers, size) != Some((1, 3)) {
                return false;
            }
        }
    }
    true
}

#[test]
fn reads_in_token_ranges(rt: HostRuntime) -> Result<(), AllocError> {
    let text = text_with(rt.alloc(), "v1 = iadd v0, v0")?;
    assert!(rt; is_read_in_token_ranges(&rt, rt.alloc(), text.as_bytes()));
    Ok(())
}

/// How many headers and functions workers read, or the first fault. None where the text has no tokens.
fn counts_by_workers<R: Threads + Sync>(
    rt: &R,
    alloc: Global,
    text: &[u8],
    workers: usize,
    size: usize,
) -> Option<Result<(usize, usize), TextErr>> {
    let list = tokens(alloc, text).ok()?;
    Some(read_raw_by(rt, alloc, text, &list, workers, size).map(counts))
}

/// Whether a text is read by several workers as one reads it.
fn is_read_alike<R: Threads + Sync>(rt: &R, alloc: Global, text: &[u8]) -> bool {
    let wanted = Some(read(rt, alloc, text).map(counts));
    for &workers in &WORKERS {
        for &size in &RANGE_SIZES {
            if counts_by_workers(rt, alloc, text, workers, size) != wanted {
                return false;
            }
        }
    }
    true
}

#[test]
fn reads_any_text_by_workers(rt: HostRuntime) {
    for &text in &[
        "",
        "; nothing",
        "test run\nset opt_level=speed\n; no function\n",
        "function %a() {\nblock0:\n    return\n}\ntest run\n",
        "function %a() {\nblock0:\n    return\n}\nfunction\n",
        "function %a() {\nblock0:\n    function\n}\n",
        "function %a() {\nblock0:\n    return\nfunction %b() {\nblock0:\n    return\n}\n",
        "i64 function %a() {\nblock0:\n    return\n}\n",
    ] {
        assert!(rt;
            is_read_alike(&rt, rt.alloc(), text.as_bytes()),
            "at {text}"
        );
    }
}

/// Whether a text with these lines is refused, and by several workers as by one.
fn is_refused_by_workers<R: Threads + Sync>(
    rt: &R,
    alloc: Global,
    first: &str,
    second: &str,
    third: &str,
) -> Result<bool, AllocError> {
    let text = text_of(alloc, first, second, third)?;
    let bytes = text.as_bytes();
    Ok(read(rt, alloc, bytes).is_err() && is_read_alike(rt, alloc, bytes))
}

#[test]
fn finds_the_first_fault_by_workers(rt: HostRuntime) -> Result<(), AllocError> {
    for &(first, second, third) in &[
        ("v1, v2 nop", "nop", "nop"),
        ("nop", "v1 = frob v0", "nop"),
        ("nop", "nop", "v1 = fadd v0, v0"),
        ("frob", "v1, v2 nop", "}"),
        ("nop", "}", "frob"),
    ] {
        assert!(rt;
            is_refused_by_workers(&rt, rt.alloc(), first, second, third)?,
            "at {first}, {second}, {third}"
        );
    }
    Ok(())
}
