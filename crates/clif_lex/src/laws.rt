//! Laws that speak of the definitions alone. Each is a function that does nothing, so that a caller has the law by a
//! call.

ghost use Rattle.std.specs.Prelude.{◌≡◌, ◌<◌, ◌≤◌, ◌++◌, ◌↔◌, ℕ, Bool, true, List, Result, IfSome, length, slice_get};
ghost use Rattle.clif_lex.specs.declared.spans.Token.{Token};
ghost use Rattle.clif_lex.specs.declared.faults.LexErr.{LexErr};
ghost use Rattle.clif_lex.specs.Lexing.{token_at, tokens_of};
ghost use Rattle.clif_lex.specs.Spelling.{Stands, IsReading, IsTokenIn, StandFrom};
ghost use Rattle.clif_lex.specs.Stretches.{stretch_tokens, two_stretches, preamble_after, IsStretch, IsCut};

use crate::spans::Tokens;

/// What stands at a byte is the longest token, or there is none.
pub fn longest_token(preamble: bool, at: usize, text: &[u8])
    ensures { Stands preamble at text.now (token_at preamble at text.now) }
{}

/// The tokens of a text are spelled as their kinds say, each is the longest that stands at its place,
/// and only blanks stand between them. A fault stands at the first byte where this cannot go on.
pub fn one_reading(text: &[u8])
    ensures { IsReading text.now (tokens_of text.now) }
{}

/// No other list of tokens, and no other fault, is one.
pub fn no_other_reading(text: &[u8])
    ensures { (read : Result (List Token) LexErr) → IsReading text.now read → read ≡ tokens_of text.now }
{}

/// A token of a text takes a byte at least, it ends in the text, and a Number is one of 64 bits.
pub fn token_in_text(text: &[u8], tokens: &Tokens, i: usize)
    requires whole { tokens_of text.now ≡ Ok tokens.now }
    requires below { i < length tokens.now }
    ensures { IfSome (slice_get tokens.now i) (IsTokenIn text.now) }
{}

/// The tokens of two stretches of a text, one behind the other, are those of the stretch that they make,
/// where the text may be cut between them.
pub fn stretches_join(text: &[u8])
    ensures { (preamble : Bool) (from between until : ℕ) (ts us : List Token) →
        IsStretch text.now preamble from between ts → IsCut text.now between
        → IsStretch text.now (preamble_after preamble ts) between until us
        → IsStretch text.now preamble from until (ts ++ us) }
{}

/// The tokens from one place of a text to another are those up to a cut between them, and then those from there on;
/// or the first fault of either.
pub fn stretch_by_stretch(text: &[u8])
    ensures { (preamble : Bool) (from between until : ℕ) → from ≤ between → between ≤ until → until ≤ length text.now
        → IsCut text.now between
        → stretch_tokens text.now preamble from until ≡ two_stretches text.now preamble from between until }
{}

/// The stretch that is the whole text has the text's tokens.
pub fn whole_stretch(text: &[u8])
    ensures { (ts : List Token) → IsStretch text.now true 0 (length text.now) ts ↔ (tokens_of text.now ≡ Ok ts) }
{}

/// The tokens of a text stand in it one behind the other, and each is spelled as its kind says.
pub fn tokens_stand(text: &[u8], tokens: &Tokens)
    requires { tokens_of text.now ≡ Ok tokens.now }
    ensures { StandFrom text.now 0 tokens.now }
{}
