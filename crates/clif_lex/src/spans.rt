//! Tokens, and the list of a text's tokens.

ghost use Rattle.std.specs.Prelude.{◌≡◌, ◌<◌, ◌≤◌, ◌^◌, ◌↔◌, IsTrue, [], length, slice_get};
ghost use Rattle.clif_lex.specs.Spans as spec;

use std::marker::Model;

/// What a token is.
#[derive(Clone, Copy, PartialEq, Eq)]
pub enum TokenKind {
    /// A line before the first function that begins with `test`, `set` or `target`.
    Header,
    /// `;` and what follows on the line.
    Comment,
    /// `%` and a name.
    Name,
    /// An opcode, a type, an entity such as `v7`, or any other word.
    Word,
    /// A number, with its sign.
    Number,
    /// A source location: `@` and hexadecimal digits.
    Srcloc,
    /// `->`
    Arrow,
    /// One of the bytes `( ) { } [ ] , : = . < >`.
    Mark(u8),
}

/// A token, and the bytes that it takes: from `start` up to `end`.
#[derive(Clone, Copy, PartialEq, Eq)]
pub struct Token {
    pub kind: TokenKind,
    pub start: usize,
    pub end: usize,
}

/// A token as it is kept, in 12 bytes.
#[derive(Clone, Copy)]
pub(crate) struct Span {
    pub kind: TokenKind,
    pub start: u32,
    pub end: u32,
}

impl Span {
    #[inline]
    pub(crate) fn new(token: Token) -> Span
        requires start { token.start < 2 ^ 32 }
        requires end { token.end < 2 ^ 32 }
        ensures { spec.token_of result ≡ token }
    {
        Span {
            kind: token.kind,
            start: token.start as u32,
            end: token.end as u32,
        }
    }

    #[inline]
    fn token(self) -> Token
        ensures { result ≡ spec.token_of self }
    {
        Token {
            kind: self.kind,
            start: self.start as usize,
            end: self.end as usize,
        }
    }
}

/// The tokens of a text.
#[derive(Drop)]
pub struct Tokens {
    pub(crate) spans: Vec<Span>,
}

impl Model for Tokens {
    ghost use Rattle.std.specs.Prelude.{List, map};
    ghost use Rattle.clif_lex.specs.declared.spans.Token.{Token};

    ghost Value = { List Token };

    ghost use Rattle.clif_lex.specs.Spans.{token_of};

    ghost view = { λ tokens. map token_of tokens.spans.items };
}

impl Tokens {
    /// How many tokens there are.
    #[inline]
    pub fn len(&self) -> usize
        ensures { result ≡ length self.now }
    {
        self.spans.len()
    }

    /// Whether there is none.
    #[inline]
    pub fn is_empty(&self) -> bool
        ensures { IsTrue result ↔ (self.now ≡ []) }
    {
        self.spans.is_empty()
    }

    /// The token at a place of the list.
    #[inline]
    pub fn get(&self, i: usize) -> Token
        requires { i < length self.now }
        ensures { slice_get self.now i ≡ Some result }
    {
        self.spans[i].token()
    }

    /// The tokens, from the left.
    #[inline]
    pub fn iter(&self) -> TokenIter<'_>
        ensures { result ≡ self.now }
    {
        TokenIter { spans: &self.spans }
    }
}

/// The tokens of a text, from the left.
#[derive(Clone, Drop)]
pub struct TokenIter<'a> {
    spans: &'a [Span],
}

impl<'a> Model for TokenIter<'a> {
    ghost use Rattle.std.specs.Prelude.{List, map};
    ghost use Rattle.clif_lex.specs.declared.spans.Token.{Token};

    ghost Value = { List Token };

    ghost use Rattle.clif_lex.specs.Spans.{token_of};

    ghost view = { λ tokens. map token_of tokens.spans.now };
}

impl<'a> Iterator for TokenIter<'a> {
    ghost use Rattle.std.specs.Iterator.{YieldsFirst, item_count};

    type Item = Token;

    ghost next_gives = { YieldsFirst (λ left. left) };

    ghost remaining = { item_count (λ left. left) };

    #[inline]
    fn next(&mut self) -> Option<Token> {
        let (span, rest) = self.spans.split_first()?;
        self.spans = rest;
        Some(span.token())
    }
}

/// The bytes that a token takes.
#[inline]
pub fn spelling(text: &[u8], token: Token) -> &[u8]
    requires ordered { token.start ≤ token.end }
    requires within { token.end ≤ length text.now }
    ensures { result.now ≡ spec.spelling text.now token }
{
    &text[token.start..token.end]
}
