//! The sets of bytes that tokens are made of.

ghost use Rattle.std.specs.Prelude.{◌≡◌, ◌==◌, not, bit_and, slice_index};
ghost use Rattle.clif_lex.specs.Bytes as spec;

/// The bit of what a word or a name goes on with.
const WORD_BYTE: u8 = 1;

/// The bit of what begins a word.
const LETTER: u8 = 2;

/// The bit of what is a token by itself.
const MARK: u8 = 4;

/// The bit of what stands between tokens.
const BLANK: u8 = 8;

/// The sets that each byte is in, as bits: one look tells what a token begins with.
const CLASSES: [u8; 256] = [
    0, 0, 0, 0, 0, 0, 0, 0, 0, 8, 8, 0, 0, 8, 0, 0, 0, 0, 0, 0, 0, 0, 0, 0, 0, 0, 0, 0, 0, 0, 0, 0,
    8, 0, 0, 0, 0, 0, 0, 0, 4, 4, 0, 0, 4, 0, 4, 0, 1, 1, 1, 1, 1, 1, 1, 1, 1, 1, 4, 0, 4, 4, 4, 0,
    0, 3, 3, 3, 3, 3, 3, 3, 3, 3, 3, 3, 3, 3, 3, 3, 3, 3, 3, 3, 3, 3, 3, 3, 3, 3, 3, 4, 0, 4, 0, 3,
    0, 3, 3, 3, 3, 3, 3, 3, 3, 3, 3, 3, 3, 3, 3, 3, 3, 3, 3, 3, 3, 3, 3, 3, 3, 3, 3, 4, 0, 4, 0, 0,
    0, 0, 0, 0, 0, 0, 0, 0, 0, 0, 0, 0, 0, 0, 0, 0, 0, 0, 0, 0, 0, 0, 0, 0, 0, 0, 0, 0, 0, 0, 0, 0,
    0, 0, 0, 0, 0, 0, 0, 0, 0, 0, 0, 0, 0, 0, 0, 0, 0, 0, 0, 0, 0, 0, 0, 0, 0, 0, 0, 0, 0, 0, 0, 0,
    0, 0, 0, 0, 0, 0, 0, 0, 0, 0, 0, 0, 0, 0, 0, 0, 0, 0, 0, 0, 0, 0, 0, 0, 0, 0, 0, 0, 0, 0, 0, 0,
    0, 0, 0, 0, 0, 0, 0, 0, 0, 0, 0, 0, 0, 0, 0, 0, 0, 0, 0, 0, 0, 0, 0, 0, 0, 0, 0, 0, 0, 0, 0, 0,
];

/// Whether a table of bytes says that a byte is in the set of a bit.
#[inline]
fn is_in(classes: &[u8; 256], c: u8, bit: u8) -> bool
    ensures { result ≡ not (bit_and (slice_index classes.now c) bit == 0) }
{
    classes[c as usize] & bit != 0
}

/// Whether a byte is a blank, which stands between tokens.
#[inline]
pub fn is_blank(c: u8) -> bool
    ensures { result ≡ spec.is_blank c }
{
    is_in(&CLASSES, c, BLANK)
}

/// What begins a word.
#[inline]
pub(crate) fn is_letter(c: u8) -> bool
    ensures { result ≡ spec.is_letter c }
{
    is_in(&CLASSES, c, LETTER)
}

/// What a word or a name goes on with.
#[inline]
pub(crate) fn is_word_byte(c: u8) -> bool
    ensures { result ≡ spec.is_word_byte c }
{
    is_in(&CLASSES, c, WORD_BYTE)
}

/// What is a token by itself.
#[inline]
pub(crate) fn is_mark(c: u8) -> bool
    ensures { result ≡ spec.is_mark c }
{
    is_in(&CLASSES, c, MARK)
}

/// What a number in base 10 goes on with.
#[inline]
pub(crate) fn is_decimal_byte(c: u8) -> bool
    ensures { result ≡ spec.is_decimal_byte c }
{
    c.is_ascii_digit() || c == b'_'
}

/// What a number in base 16 goes on with.
#[inline]
pub(crate) fn is_hex_byte(c: u8) -> bool
    ensures { result ≡ spec.is_hex_byte c }
{
    c.is_ascii_hexdigit() || c == b'_'
}

/// What may stand before a number's digits.
#[inline]
pub(crate) fn is_sign(c: u8) -> bool
    ensures { result ≡ spec.is_sign c }
{
    c == b'+' || c == b'-'
}

/// The byte at the front, or 0 in an empty text.
#[inline]
pub(crate) fn first(text: &[u8]) -> u8
    ensures { result ≡ spec.first text.now }
{
    match text {
        [] => 0,
        [c, ..] => *c,
    }
}

/// The byte after that, or 0 where there is none.
#[inline]
pub(crate) fn second(text: &[u8]) -> u8
    ensures { result ≡ spec.second text.now }
{
    match text {
        [] => 0,
        [_, rest @ ..] => first(rest),
    }
}
