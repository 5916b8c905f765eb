//! What no clause says: that the definitions are what the text form of CLIF asks for, and that tokens are given.

use clif_lex::{
    TextErr, TextKind, TokenKind, Tokens, next_line_with, place, tokens, tokens_between,
};
use std::alloc::{AllocError, Global};

const HEADER: TokenKind = TokenKind::Header;

const COMMENT: TokenKind = TokenKind::Comment;

const NAME: TokenKind = TokenKind::Name;

const WORD: TokenKind = TokenKind::Word;

const NUMBER: TokenKind = TokenKind::Number;

const SRCLOC: TokenKind = TokenKind::Srcloc;

const ARROW: TokenKind = TokenKind::Arrow;

const COLON: TokenKind = TokenKind::Mark(b':');

/// Whether the text has these tokens and no more.
fn has_tokens(alloc: Global, text: &[u8], want: &[(TokenKind, &str)]) -> bool {
    let Ok(found) = tokens(alloc, text) else {
        return false;
    };
    for (i, (kind, spelled)) in want.iter().enumerate() {
        if i >= found.len() || found.get(i).kind != *kind {
            return false;
        }
        if found.spelling(text, i) != spelled.as_bytes() {
            return false;
        }
    }
    found.len() == want.len()
}

/// Texts with the two tokens of each.
static TOKENS: [(&str, &[(TokenKind, &str)]); 10] = [
    // each kind, with the spelling that it takes
    (
        "test interpret\nset a\n",
        &[(HEADER, "test interpret"), (HEADER, "set a")],
    ),
    (
        "; c\r\n  target x86_64\r\n",
        &[(COMMENT, "; c\r"), (HEADER, "target x86_64\r")],
    ),
    ("%f_0 v0", &[(NAME, "%f_0"), (WORD, "v0")]),
    ("-0x1_f->", &[(NUMBER, "-0x1_f"), (ARROW, "->")]),
    ("@0ag", &[(SRCLOC, "@0a"), (WORD, "g")]),
    ("tests:", &[(WORD, "tests"), (COLON, ":")]),
    // the rules on underscores, signs and first words
    ("1__0 0xf_", &[(NUMBER, "1__0"), (NUMBER, "0xf_")]),
    ("v0+8", &[(WORD, "v0"), (NUMBER, "+8")]),
    ("1 test", &[(NUMBER, "1"), (WORD, "test")]),
    ("test:x\nv01", &[(HEADER, "test:x"), (WORD, "v01")]),
];

/// The first of the texts that has other tokens.
fn first_wrong(alloc: Global) -> Option<&'static str> {
    for (text, want) in TOKENS.iter() {
        if !has_tokens(alloc, text.as_bytes(), want) {
            return Some(*text);
        }
    }
    None
}

#[test]
fn reads_tokens(rt: HostRuntime) {
    assert_eq!(rt; first_wrong(rt.alloc()), None);
}

/// The value of the first token, if it is a number.
fn first_number(alloc: Global, text: &[u8]) -> Option<i128> {
    let Ok(found) = tokens(alloc, text) else {
        return None;
    };
    if found.is_empty() || found.get(0).kind != NUMBER {
        return None;
    }
    Some(found.number(text, 0))
}

#[test]
fn reads_numbers(rt: HostRuntime) {
    for (text, want) in [
        ("1_000", 1000),
        (" +0xfF_", 255),
        ("-0x10", -16),
        ("18446744073709551615", 18446744073709551615),
        ("-9223372036854775808", -9223372036854775808),
    ] {
        let found = first_number(rt.alloc(), text.as_bytes());
        assert!(rt; found == Some(want), "at {text}");
    }
}

/// How many tokens are seen behind those of the stretch, where `found` has these from `seen` on.
fn seen_behind(stretch: &Tokens, found: &Tokens, seen: usize) -> Option<usize> {
    let mut seen = seen;
    for token in stretch.iter() {
        if seen >= found.len() || token != found.get(seen) {
            return None;
        }
        seen += 1;
    }
    Some(seen)
}

/// Whether every token of the stretch may stand in a preamble.
fn is_preamble(stretch: &Tokens) -> bool {
    for token in stretch.iter() {
        if !matches!(token.kind, HEADER | COMMENT) {
            return false;
        }
    }
    true
}

/// How many tokens the text has, where line by line it has those that it has as a whole.
fn count_by_lines(alloc: Global, text: &[u8]) -> Option<usize> {
    let found = tokens(alloc, text).ok()?;
    let mut seen = 0;
    let mut from = 0;
    let mut preamble = true;
    for _ in 0..text.len() {
        if from < text.len() {
            let end = next_line_with(text, from, b"");
            let stretch = tokens_between(alloc, text, from, end, preamble).ok()?;
            seen = seen_behind(&stretch, &found, seen)?;
            preamble = preamble && is_preamble(&stretch);
            from = end;
        }
    }
    if seen == found.len() {
        Some(seen)
    } else {
        None
    }
}

#[test]
fn reads_stretches(rt: HostRuntime) {
    for (text, count) in [
        ("test a\n; c\n\n%f -> 0x1_0\n test b\n", 7),
        ("; set c\n set c\n", 2),
        ("@1\r\n\n1 2", 3),
    ] {
        let seen = count_by_lines(rt.alloc(), text.as_bytes());
        assert!(rt; seen == Some(count), "at {text}");
    }
}

/// Whether the first fault of the text is of this kind and stands there.
fn has_fault(alloc: Global, text: &[u8], want: TextKind, line: u32, column: u32) -> bool {
    let Err(err) = tokens(alloc, text) else {
        return false;
    };
    let TextErr::Fault { kind, spot } = TextErr::from(err) else {
        return false;
    };
    if spot > text.len() || text.len() >= 1000 {
        return false;
    }
    let found = place(text, spot);
    kind == want && found.line == line && found.column == column
}

/// Ends of a text, each with its fault and the fault's line and column in the whole text.
static FAULTS: [(&str, TextKind, u32, u32); 10] = [
    (
        "    v1 = iadd v0, #\n    return v0\n}\n",
        TextKind::BadChar,
        3,
        19,
    ),
    (
        "    v1 = iconst.i64 0x\n    return v0\n}\n",
        TextKind::BadNumber,
        3,
        21,
    ),
    ("1_a", TextKind::BadNumber, 3, 1),
    ("\n 0x_1", TextKind::BadNumber, 4, 2),
    ("0X1", TextKind::BadNumber, 3, 1),
    (" @g", TextKind::BadNumber, 3, 2),
    ("18446744073709551616", TextKind::BadNumber, 3, 1),
    ("-9223372036854775809", TextKind::BadNumber, 3, 1),
    ("v0 -", TextKind::BadChar, 3, 4),
    ("%", TextKind::BadChar, 3, 1),
];

#[test]
fn names_faults(rt: HostRuntime) -> Result<(), AllocError> {
    let head = "function %f(i64) -> i64 {\nblock0(v0: i64):\n";
    for (line, want, line_number, column) in FAULTS.iter() {
        let text = format!(in rt.alloc(); "{head}{line}")?;
        let agrees = has_fault(rt.alloc(), text.as_bytes(), *want, *line_number, *column);
        assert!(rt; agrees, "at {line}");
    }
    Ok(())
}
