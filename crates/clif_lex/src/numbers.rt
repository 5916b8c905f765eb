//! What numbers mean.

ghost use Rattle.std.specs.Prelude.{◌≡◌, ◌+◌, ◌<◌, ◌≤◌, ◌^◌, length, true, MatchOption};
ghost use Rattle.std.specs.List.{prefix_len};
ghost use Rattle.std.specs.Char.{digit_value};
ghost use Rattle.clif_lex.specs.Bytes as bytes;
ghost use Rattle.clif_lex.specs.Numbers as spec;
ghost use Rattle.clif_lex.specs.Spans.{spelling};

use crate::bytes::{first, is_decimal_byte, is_hex_byte, second};
use crate::spans::{Token, spelling};

/// The value of a digit or a letter, or 36 for any other byte.
#[inline]
pub fn digit(c: u8) -> u64
    ensures value { result ≡ digit_value c }
    ensures small { result ≤ 36 }
{
    match c {
        b'0'..=b'9' => (c - b'0') as u64,
        b'A'..=b'Z' => (c - b'A') as u64 + 10,
        b'a'..=b'z' => (c - b'a') as u64 + 10,
        _ => 36,
    }
}

/// The number that digits write, if it fits.
#[inline]
fn amount(radix: u64, digits: &[u8]) -> Option<u64>
    requires low { 1 ≤ radix }
    requires high { radix ≤ 16 }
    ensures { MatchOption result (2 ^ 64 ≤ spec.amount radix digits.now) (λ n. n ≡ spec.amount radix digits.now) }
{
    let mut value = 0u64;
    'digits: for c in digits {
        if *c != b'_' {
            let next = u128::from(value) * u128::from(radix) + u128::from(digit(*c));
            if next > u64::MAX as u128 {
                return None;
            }
            value = next as u64;
        }
    }
    Some(value)
}

/// The text without the sign at its front.
#[inline]
pub(crate) fn unsigned(text: &[u8]) -> &[u8]
    ensures { result.now ≡ spec.unsigned text.now }
{
    match text {
        [b'+' | b'-', rest @ ..] => rest,
        _ => text,
    }
}

/// Whether a text without a sign begins with `0x`.
#[inline]
fn is_hex(text: &[u8]) -> bool
    ensures { result ≡ spec.is_hex text.now }
{
    first(text) == b'0' && second(text) == b'x'
}

/// The magnitude that a text without a sign spells, if it fits.
#[inline]
fn magnitude(text: &[u8]) -> Option<u64>
    ensures { MatchOption result (2 ^ 64 ≤ spec.magnitude text.now) (λ n. n ≡ spec.magnitude text.now) }
{
    if is_hex(text) {
        amount(16, &text[2..])
    } else {
        amount(10, text)
    }
}

/// Whether the text spells a number of 64 bits, with a sign or without.
#[inline]
pub(crate) fn is_in_range(text: &[u8]) -> bool
    ensures { result ≡ spec.is_in_range text.now }
{
    match magnitude(unsigned(text)) {
        None => false,
        Some(value) => first(text) != b'-' || value <= 1 << 63,
    }
}

/// How many bytes of a number in base 16 stand at the front.
#[inline]
fn hex_run(text: &[u8]) -> usize
    ensures len { result ≡ prefix_len bytes.is_hex_byte text.now }
    ensures within { result ≤ length text.now }
{
    text.iter().take_while(|c| is_hex_byte(**c)).count()
}

/// How many bytes of a number in base 10 stand at the front.
#[inline]
fn decimal_run(text: &[u8]) -> usize
    ensures len { result ≡ prefix_len bytes.is_decimal_byte text.now }
    ensures within { result ≤ length text.now }
{
    text.iter().take_while(|c| is_decimal_byte(**c)).count()
}

/// How many bytes the digits at the front take, with their `0x`.
#[inline]
fn digits_len(text: &[u8]) -> usize
    ensures len { result ≡ spec.digits_len text.now }
    ensures within { result ≤ length text.now }
{
    if is_hex(text) {
        2 + hex_run(&text[2..])
    } else {
        decimal_run(text)
    }
}

/// How many bytes the number at the front takes.
#[inline]
pub(crate) fn number_len(text: &[u8]) -> usize
    ensures len { result ≡ spec.number_len text.now }
    ensures within { result ≤ length text.now }
{
    let number = unsigned(text);
    (text.len() - number.len()) + digits_len(number)
}

/// Whether the number at the front has an `0x` with no hexadecimal digit after it.
#[inline]
pub(crate) fn lacks_digits(text: &[u8]) -> bool
    ensures { result ≡ spec.lacks_digits text.now }
{
    let number = unsigned(text);
    is_hex(number) && !first(&number[2..]).is_ascii_hexdigit()
}

/// The number that a Number token of the text spells.
#[inline]
pub fn number(text: &[u8], token: Token) -> i128
    requires ordered { token.start ≤ token.end }
    requires within { token.end ≤ length text.now }
    requires in_range { spec.is_in_range (spelling text.now token) ≡ true }
    ensures { result ≡ spec.spelled_number (spelling text.now token) }
{
    let spelled = spelling(text, token);
    match magnitude(unsigned(spelled)) {
        None => unreachable!(),
        Some(value) => {
            if first(spelled) == b'-' {
                -i128::from(value)
            } else {
                i128::from(value)
            }
        }
    }
}
