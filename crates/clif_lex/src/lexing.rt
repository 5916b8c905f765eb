//! The tokens of a text.

ghost use Rattle.std.specs.Prelude.{◌≡◌, ◌∷◌, ◌&&◌, ◌+◌, ◌<◌, ◌≤◌, ◌^◌, Bool, true, false, drop, length, slice_get};
ghost use Rattle.std.specs.Prelude.{IfSome, IfOk, IfErr, OnOk, vec_len, vec_capacity};
ghost use Rattle.std.specs.List.{prefix_len};
ghost use Rattle.std.specs.Char.{is_ascii_digit, is_ascii_hexdigit};
ghost use Rattle.clif_lex.specs.Bytes as bytes;
ghost use Rattle.clif_lex.specs.declared.spans.TokenKind.TheVariants.{Number};
ghost use Rattle.clif_lex.specs.Numbers as numbers;
ghost use Rattle.clif_lex.specs.Spans.{spelling};
ghost use Rattle.clif_lex.specs.Lexing as spec;
ghost use Rattle.clif_lex.specs.Lexing.{Gives};
ghost use Rattle.clif_lex.specs.Spelling.{IsFaultIn, AreIn};
ghost use Rattle.clif_lex.specs.Stretches.{stretch_tokens};

use crate::bytes::{first, is_blank, is_letter, is_mark, is_sign, is_word_byte, second};
use crate::faults::LexErr;
use crate::numbers::{is_in_range, lacks_digits, number_len, unsigned};
use crate::spans::{Span, Token, TokenKind, Tokens};
use std::alloc::{AllocError, Global};

/// Where the word bytes that stand at a place end.
#[inline]
fn word_end(text: &[u8], at: usize) -> usize
    requires { at ≤ length text.now }
    ensures end { result ≡ at + prefix_len bytes.is_word_byte (drop at text.now) }
    ensures within { result ≤ length text.now }
{
    let mut end = at;
    'bytes: while end < text.len() && is_word_byte(text[end]) {
        end += 1;
    }
    end
}

/// Where the blanks that stand at a place end.
#[inline]
fn blanks_end(text: &[u8], at: usize) -> usize
    requires { at ≤ length text.now }
    ensures same { (preamble : Bool) → spec.tokens_from preamble 0 result (drop result text.now)
        ≡ spec.tokens_from preamble 0 at (drop at text.now) }
    ensures stop { bytes.is_blank (bytes.first (drop result text.now)) ≡ false }
    ensures forward { at ≤ result }
    ensures within { result ≤ length text.now }
{
    let mut end = at;
    'bytes: while end < text.len() && is_blank(text[end]) {
        end += 1;
    }
    end
}

/// How many hexadecimal digits stand at the front.
#[inline]
fn hex_run(text: &[u8]) -> usize
    ensures len { result ≡ prefix_len is_ascii_hexdigit text.now }
    ensures within { result ≤ length text.now }
{
    text.iter().take_while(|c| c.is_ascii_hexdigit()).count()
}

/// How many bytes stand before the line's end.
#[inline]
fn line_run(text: &[u8]) -> usize
    ensures len { result ≡ prefix_len bytes.is_no_line_feed text.now }
    ensures within { result ≤ length text.now }
{
    text.iter().take_while(|c| **c != b'\n').count()
}

/// Whether a word begins a Header.
#[inline]
fn is_header_word(word: &[u8]) -> bool
    ensures { result ≡ spec.is_header_word word.now }
{
    word == b"test".as_slice() || word == b"set".as_slice() || word == b"target".as_slice()
}

/// Whether a Header may still stand behind a token, if one might stand at its place.
#[inline]
fn stays_preamble(preamble: bool, kind: TokenKind) -> bool
    ensures { result ≡ (preamble && spec.is_preamble kind) }
{
    preamble && matches!(kind, TokenKind::Header | TokenKind::Comment)
}

/// The Number that begins the text, before which `at` bytes stand.
#[tactic(auto, unfolding(crate::specs::Lexing::number_at))]
fn any_number_at(at: usize, text: &[u8]) -> Result<Token, LexErr>
    requires short { at + length text.now < 2 ^ 32 }
    ensures is { result ≡ spec.number_at at text.now }
    ensures start { IfOk result (λ t. t.start ≡ at) }
    ensures within { IfOk result (λ t. t.end ≤ at + length text.now) }
{
    let len = number_len(text);
    let (number, rest) = text.split_at(len);
    if lacks_digits(text) || is_letter(first(rest)) || !is_in_range(number) {
        Err(LexErr::BadNumber(at))
    } else {
        Ok(Token {
            kind: TokenKind::Number,
            start: at,
            end: at + len,
        })
    }
}

/// How many digits stand at the front.
#[inline]
pub fn digit_run(text: &[u8]) -> usize
    ensures len { result ≡ prefix_len is_ascii_digit text.now }
    ensures within { result ≤ length text.now }
{
    text.iter().take_while(|c| c.is_ascii_digit()).count()
}

/// How many digits a number may have that is in the range of 64 bits whatever they are, with a sign or without.
const SURE_DIGITS: usize = 18;

/// The Number that begins the text, before which `at` bytes stand.
/// One of few digits, with nothing else to it but a sign, is in range.
#[inline]
fn number_at(at: usize, text: &[u8]) -> Result<Token, LexErr>
    requires short { at + length text.now < 2 ^ 32 }
    ensures is { result ≡ spec.number_at at text.now }
    ensures start { IfOk result (λ t. t.start ≡ at) }
    ensures within { IfOk result (λ t. t.end ≤ at + length text.now) }
{
    let digits = unsigned(text);
    let count = digit_run(digits);
    if count <= SURE_DIGITS && !is_word_byte(first(&digits[count..])) {
        return Ok(Token {
            kind: TokenKind::Number,
            start: at,
            end: at + (text.len() - digits.len()) + count,
        });
    }
    any_number_at(at, text)
}

/// The word that stands at a place, or the Header where one may stand.
#[inline]
fn word_at(preamble: bool, text: &[u8], at: usize) -> Token
    requires below { at < length text.now }
    requires letter { bytes.is_letter (bytes.first (drop at text.now)) ≡ true }
    requires short { length text.now < 2 ^ 32 }
    ensures is { result ≡ spec.word_at preamble at (drop at text.now) }
    ensures start { result.start ≡ at }
    ensures some { at < result.end }
    ensures within { result.end ≤ length text.now }
{
    let end = word_end(text, at + 1);
    if preamble && is_header_word(&text[at..end]) {
        return Token {
            kind: TokenKind::Header,
            start: at,
            end: at + line_run(&text[at..]),
        };
    }
    Token {
        kind: TokenKind::Word,
        start: at,
        end,
    }
}

/// Whether a number begins the text: a digit, or a sign before one.
#[inline]
fn begins_number(text: &[u8]) -> bool
    ensures { result ≡ spec.begins_number text.now }
{
    first(text).is_ascii_digit() || (is_sign(first(text)) && second(text).is_ascii_digit())
}

/// The token that begins the text, before which `at` bytes stand, if it is no word and no mark.
/// The text is the byte `c` and the rest.
#[inline]
#[tactic(auto, unfolding(crate::specs::Lexing::token_at))]
fn other_at(at: usize, text: &[u8], c: u8, rest: &[u8]) -> Result<Token, LexErr>
    requires whole { text.now ≡ c ∷ rest.now }
    requires no_letter { bytes.is_letter c ≡ false }
    requires no_mark { bytes.is_mark c ≡ false }
    requires short { at + length text.now < 2 ^ 32 }
    ensures is { (preamble : Bool) → result ≡ spec.token_at preamble at text.now }
    ensures start { IfOk result (λ t. t.start ≡ at) }
    ensures some { IfOk result (λ t. at < t.end) }
    ensures within { IfOk result (λ t. t.end ≤ at + length text.now) }
{
    if begins_number(text) {
        return number_at(at, text);
    }
    let next = first(rest);
    let (kind, len) = if c == b'%' && is_word_byte(next) {
        (TokenKind::Name, 1 + word_end(rest, 0))
    } else if c == b';' {
        (TokenKind::Comment, line_run(text))
    } else if c == b'-' && next == b'>' {
        (TokenKind::Arrow, 2)
    } else if c == b'@' {
        if !next.is_ascii_hexdigit() {
            return Err(LexErr::BadNumber(at));
        }
        (TokenKind::Srcloc, 1 + hex_run(rest))
    } else {
        return Err(LexErr::BadChar(at));
    };
    Ok(Token {
        kind,
        start: at,
        end: at + len,
    })
}

/// The token that stands at a place.
#[inline]
fn token_at(preamble: bool, text: &[u8], at: usize) -> Result<Token, LexErr>
    requires below { at < length text.now }
    requires short { length text.now < 2 ^ 32 }
    ensures is { result ≡ spec.token_at preamble at (drop at text.now) }
    ensures start { IfOk result (λ t. t.start ≡ at) }
    ensures some { IfOk result (λ t. at < t.end) }
    ensures within { IfOk result (λ t. t.end ≤ length text.now) }
{
    let c = text[at];
    if is_letter(c) {
        return Ok(word_at(preamble, text, at));
    }
    if is_mark(c) {
        return Ok(Token {
            kind: TokenKind::Mark(c),
            start: at,
            end: at + 1,
        });
    }
    other_at(at, &text[at..], c, &text[at + 1..])
}

/// How many bytes a token of a dense text takes on average, with the blanks behind it.
const BYTES_OF_A_TOKEN: usize = 3;

/// For how many tokens a list has room at first, at most.
const MOST_ROOM: usize = 32_768;

/// For how many tokens the list of so many bytes has room at first.
#[inline]
fn guess_token_count(byte_count: usize) -> usize {
    let count = byte_count / BYTES_OF_A_TOKEN;
    if count < MOST_ROOM { count } else { MOST_ROOM }
}

/// Makes room for a token behind the others, where there is none.
#[inline]
fn make_room(spans: &mut Vec<Span>) -> Result<(), AllocError>
    ensures items { spans.new.items ≡ spans.old.items }
    ensures room { OnOk result (vec_len spans.new + 1 ≤ vec_capacity spans.new) }
{
    if spans.len() < spans.capacity() {
        Ok(())
    } else {
        spans.reserve(1)
    }
}

/// The tokens that stand from one byte up to another, as if the text ended there, or the first fault between them.
/// Spans and faults are places in the whole text. `preamble` says whether a Header may stand at the front.
/// A text of 2^32 bytes or more is refused with NoMemory, since spans are kept in 32 bits.
pub fn tokens_between(
    alloc: Global,
    text: &[u8],
    from: usize,
    end: usize,
    preamble: bool,
) -> Result<Tokens, LexErr>
    requires ordered { from ≤ «end» }
    requires within { «end» ≤ length text.now }
    ensures tokens { Gives result (stretch_tokens text.now preamble from «end») }
    ensures spot { IfErr result (IsFaultIn text.now) }
    ensures in_text { IfOk result (AreIn text.now) }
{
    if text.len() > u32::MAX as usize {
        return Err(LexErr::NoMemory);
    }
    let stretch = &text[..end];
    let mut spans = Vec::new(alloc);
    let _ = spans.reserve(guess_token_count(end - from));
    let mut in_preamble = preamble;
    let mut at = blanks_end(stretch, from);
    'tokens: while at < stretch.len() {
        let token = token_at(in_preamble, stretch, at)?;
        make_room(&mut spans)?;
        spans.push_reserved(Span::new(token));
        in_preamble = stays_preamble(in_preamble, token.kind);
        at = blanks_end(stretch, token.end);
    }
    Ok(Tokens { spans })
}

/// The tokens of the text, or its first fault.
/// A text of 2^32 bytes or more is refused with NoMemory, since spans are kept in 32 bits.
pub fn tokens(alloc: Global, text: &[u8]) -> Result<Tokens, LexErr>
    ensures tokens { Gives result (spec.tokens_of text.now) }
    ensures spot { IfErr result (IsFaultIn text.now) }
    ensures in_text { IfOk result (AreIn text.now) }
{
    tokens_between(alloc, text, 0, text.len(), true)
}

impl Tokens {
    /// The bytes that a token of the text takes.
    #[inline]
    pub fn spelling<'a>(&self, text: &'a [u8], i: usize) -> &'a [u8]
        requires inside { AreIn text.now self.now }
        requires below { i < length self.now }
        ensures { IfSome (slice_get self.now i) (λ token. result.now ≡ spelling text.now token) }
    {
        crate::spans::spelling(text, self.get(i))
    }

    /// The number that a Number token of the text spells.
    #[inline]
    pub fn number(&self, text: &[u8], i: usize) -> i128
        requires inside { AreIn text.now self.now }
        requires below { i < length self.now }
        requires kind { IfSome (slice_get self.now i) (λ token. token.kind ≡ Number) }
        ensures { IfSome (slice_get self.now i) (λ token. result ≡ numbers.spelled_number (spelling text.now token)) }
    {
        crate::numbers::number(text, self.get(i))
    }
}
