//! The kinds of tokens, and the names and numbers that they spell.

ghost use Rattle.std.specs.Prelude.{◌≡◌, drop};
ghost use Rattle.clif_words.specs.Lexemes as lexeme_specs;
ghost use Rattle.clif_words.specs.Seen.{seen};

use crate::reader::Next;
use clif_lex::TokenKind;
use clif_words::{Terminal, Word};

/// Whether a token is a comment.
#[inline]
pub fn is_comment(kind: TokenKind) -> bool
    ensures { result ≡ lexeme_specs.is_comment kind }
{
    matches!(kind, TokenKind::Comment)
}

/// Whether a token is a number.
#[inline]
pub(crate) fn is_number(kind: TokenKind) -> bool
    ensures { result ≡ lexeme_specs.is_number kind }
{
    matches!(kind, TokenKind::Number)
}

/// What stands behind the first byte.
#[inline]
fn skip_first(spelling: &[u8]) -> &[u8]
    ensures { result.now ≡ drop 1 spelling.now }
{
    match spelling.split_first() {
        Some((_, rest)) => rest,
        None => spelling,
    }
}

/// What a token with this spelling spells as a name, without its `%`, or nothing where it is none.
#[inline]
pub(crate) fn strip_mark(kind: TokenKind, spelling: &[u8]) -> &[u8]
    ensures { result.now ≡ lexeme_specs.name_of kind spelling.now }
{
    match kind {
        TokenKind::Name => skip_first(spelling),
        _ => &[],
    }
}

/// Which of its class the next token is, a word that names no entity.
#[inline(never)]
fn parse_other_number(next: &Next) -> u64
    ensures { result ≡ (seen next.now.terminal).number }
{
    next.terminal.number()
}

/// The number in the word of an entity; of another token, which of its class it is.
/// The terminal is only looked at: for a call that takes it by value it would be copied first.
#[inline]
pub(crate) fn parse_number(next: &Next) -> u64
    ensures { result ≡ (seen next.now.terminal).number }
{
    match next.terminal {
        Terminal::Word(Word::Entity(_, number)) => number,
        Terminal::Word(_) => parse_other_number(next),
        _ => 0,
    }
}
