//! The marks of a `run:`, and the texts between them.
ghost use Rattle.std.specs.Prelude.{◌≡◌, ◌≤◌, length, take, drop, option_map};
ghost use Rattle.std.specs.List.{list_all};
ghost use Rattle.test_directives.specs.Frame as frame;
ghost use Rattle.test_directives.specs.Marks as spec;

use clif_lex::is_blank;

/// What a byte of a `run:` is to its grammar.
#[derive(Clone, Copy, PartialEq, Eq)]
pub(crate) enum Mark {
    Blank,
    /// `(`.
    LeftParen,
    /// `)`.
    RightParen,
    /// `[`.
    LeftBracket,
    /// `]`.
    RightBracket,
    /// `=`.
    Equals,
    /// `!`.
    Bang,
    /// Any other byte.
    Other,
}

/// What a byte is.
fn mark_of(byte: u8) -> Mark
    ensures { result ≡ spec.mark_of byte }
{
    if is_blank(byte) {
        return Mark::Blank;
    }
    match byte {
        b'(' => Mark::LeftParen,
        b')' => Mark::RightParen,
        b'[' => Mark::LeftBracket,
        b']' => Mark::RightBracket,
        b'=' => Mark::Equals,
        b'!' => Mark::Bang,
        _ => Mark::Other,
    }
}

/// What stands behind the first byte, where that is this mark.
pub(crate) fn behind_mark(text: &[u8], mark: Mark) -> Option<&[u8]>
    ensures { option_map (λ rest. rest.now) result ≡ spec.behind_mark mark text.now }
{
    match text {
        [first, rest @ ..] if mark_of(*first) as u8 == mark as u8 => Some(rest),
        _ => None,
    }
}

/// Whether a byte may stand in a name or in numbers.
fn is_letter(byte: u8) -> bool
    ensures { result ≡ spec.is_in frame.letter byte }
{
    matches!(mark_of(byte), Mark::Blank | Mark::Other)
}

/// How many bytes stand before the first mark.
fn letters(text: &[u8]) -> usize
    ensures len { result ≡ spec.count frame.letter text.now }
    ensures within { result ≤ length text.now }
{
    text.iter().take_while(|c| is_letter(**c)).count()
}

/// The text before the first mark, and the text from there on.
pub(crate) fn split_field(text: &[u8]) -> (&[u8], &[u8])
    ensures front { result.0.now ≡ take (spec.count frame.letter text.now) text.now }
    ensures back { result.1.now ≡ drop (spec.count frame.letter text.now) text.now }
{
    text.split_at(letters(text))
}

/// Whether the first byte is this mark.
pub(crate) fn begins(text: &[u8], mark: Mark) -> bool
    ensures { result ≡ spec.begins mark text.now }
{
    match text {
        [first, ..] => mark as u8 == mark_of(*first) as u8,
        [] => false,
    }
}

/// Whether a byte may stand in a number, a trap or a throw.
fn is_plain_byte(byte: u8) -> bool
    ensures { result ≡ spec.is_in frame.plain_letter byte }
{
    matches!(
        mark_of(byte),
        Mark::Blank | Mark::Other | Mark::LeftParen | Mark::RightParen
    )
}

/// Whether these bytes may stand in a number, a trap or a throw.
pub(crate) fn are_plain(text: &[u8]) -> bool
    ensures { result ≡ list_all (spec.is_in frame.plain_letter) text.now }
{
    text.iter().all(|c| is_plain_byte(*c))
}
