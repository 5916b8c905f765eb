//! Lines, and the comments of a text with their places.
ghost use Rattle.std.specs.Prelude.{◌≡◌, ◌≤◌, drop, length, map, nat_le, nat_lt, slice_range, IfOk};
ghost use Rattle.std.specs.List.{prefix_len};
ghost use Rattle.clif_lex.specs.Places.{line_at};
ghost use Rattle.clif_lex.specs.Spelling.{StandFrom};
ghost use Rattle.test_directives.specs.Tests as tests;
ghost use Rattle.test_directives.specs.Placing as spec;

use clif_lex::{Tokens, spelling};
use std::alloc::{AllocError, Global};
use std::marker::Model;
use token_reader::is_comment;

/// Counts the lines of a text from the front to the back.
#[derive(Drop)]
pub(crate) struct LineCounter<'t> {
    text: &'t [u8],
    /// The byte before which the lines were counted.
    at: usize,
    /// The line of that byte.
    line: u32,
}

impl<'t> Model for LineCounter<'t> {
    ghost use Rattle.test_directives.specs.Placing.{Counted, IsLine};

    ghost Value = { Counted };

    ghost view = { λ c. record { text = c.text.now; at = c.at } };

    ghost invariant = { λ c. IsLine c.text.now c.at c.line };
}

impl<'t> LineCounter<'t> {
    pub(crate) fn new(text: &'t [u8]) -> Self
        requires { length text.now ≤ 4294967294 }
        ensures { result ≡ spec.counted text.now 0 }
    {
        LineCounter {
            text,
            at: 0,
            line: 1,
        }
    }

    /// The line of a byte that is none of those before the last one that was asked for.
    pub(crate) fn line_at(&mut self, spot: usize) -> u32
        requires forward { self.old.at ≤ spot }
        requires within { spot ≤ length self.old.text }
        ensures line { result ≡ line_at self.old.text spot }
        ensures at { self.new ≡ spec.counted self.old.text spot }
    {
        self.line += line_feeds(&self.text[self.at..spot]) as u32;
        self.at = spot;
        self.line
    }
}

/// How many line feeds stand in these bytes.
fn line_feeds(bytes: &[u8]) -> usize
    ensures count { result ≡ spec.line_feeds bytes.now }
    ensures within { result ≤ length bytes.now }
{
    bytes.iter().filter(|c| **c == b'\n').count()
}

/// A comment with its place.
#[derive(Clone, Copy)]
pub(crate) struct PlacedComment<'t> {
    pub spot: usize,
    pub line: u32,
    pub text: &'t [u8],
}

/// The comments of a text.
pub(crate) fn comments<'t>(
    alloc: Global,
    text: &'t [u8],
    tokens: &Tokens,
) -> Result<Vec<PlacedComment<'t>>, AllocError>
    requires short { length text.now ≤ 4294967294 }
    requires stand { StandFrom text.now 0 tokens.now }
    ensures { IfOk result (λ list. map spec.placed_of list.items ≡ tests.comments text.now tokens.now) }
{
    let mut lines = LineCounter::new(text);
    let mut list = Vec::new(alloc);
    'tokens: for i in 0..tokens.len() {
        let token = tokens.get(i);
        if !is_comment(token.kind) {
            continue;
        }
        list.push(PlacedComment {
            spot: token.start,
            line: lines.line_at(token.start),
            text: spelling(text, token),
        })?;
    }
    Ok(list)
}

/// Of comments in order those between two spots: from which place of the list on, and before which.
pub(crate) fn between(comments: &[PlacedComment<'_>], from: usize, until: usize) -> (usize, usize)
    requires in_order { spec.InOrder (map spec.placed_of comments.now) }
    requires ordered { from ≤ until }
    ensures ordered { result.0 ≤ result.1 }
    ensures within { result.1 ≤ length comments.now }
    ensures own { map spec.placed_of (slice_range comments.now result.0 result.1)
        ≡ spec.between (map spec.placed_of comments.now) from until }
    ensures behind { spec.LeavesBehind until (map spec.placed_of comments.now)
        (map spec.placed_of (drop result.1 comments.now)) }
    ensures in_order { spec.InOrder (map spec.placed_of (drop result.1 comments.now)) }
{
    let start = up_to(comments, from);
    let count = before(comments.split_at(start).1, until);
    (start, start + count)
}

/// How many of the comments stand up to a spot, from the front on.
fn up_to(comments: &[PlacedComment<'_>], spot: usize) -> usize
    ensures len { result ≡ prefix_len (λ c. nat_le c.spot spot) comments.now }
    ensures within { result ≤ length comments.now }
{
    comments.iter().take_while(|c| c.spot <= spot).count()
}

/// How many of the comments stand before a spot, from the front on.
fn before(comments: &[PlacedComment<'_>], spot: usize) -> usize
    ensures len { result ≡ prefix_len (λ c. nat_lt c.spot spot) comments.now }
    ensures within { result ≤ length comments.now }
{
    comments.iter().take_while(|c| c.spot < spot).count()
}
