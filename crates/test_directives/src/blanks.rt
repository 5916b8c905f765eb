//! Blanks, the words between them, and what stands behind the front of a text.
ghost use Rattle.std.specs.Prelude.{◌≡◌, ◌<◌, ◌≤◌, ◌∷◌, [], not, length, option_map, IfSome, MatchOption};
ghost use Rattle.std.specs.List.{prefix_len, suffix_len};
ghost use Rattle.clif_lex.specs.Bytes as bytes;
ghost use Rattle.test_directives.specs.Blanks as spec;

use clif_lex::is_blank;

/// How many blanks stand in front.
fn blanks_in_front(text: &[u8]) -> usize
    ensures len { result ≡ prefix_len bytes.is_blank text.now }
    ensures within { result ≤ length text.now }
{
    text.iter().take_while(|c| is_blank(**c)).count()
}

/// How many blanks stand at the end.
fn blanks_at_end(text: &[u8]) -> usize
    ensures len { result ≡ suffix_len bytes.is_blank text.now }
    ensures within { result ≤ length text.now }
{
    text.iter().rev().take_while(|c| is_blank(**c)).count()
}

/// How many bytes stand before the first blank.
fn word_len(text: &[u8]) -> usize
    ensures len { result ≡ prefix_len (λ c. not (bytes.is_blank c)) text.now }
    ensures within { result ≤ length text.now }
{
    text.iter().take_while(|c| !is_blank(**c)).count()
}

/// The text without the blanks in front.
pub(crate) fn trim_front(text: &[u8]) -> &[u8]
    ensures { result.now ≡ spec.trim_front text.now }
{
    text.split_at(blanks_in_front(text)).1
}

/// The text without the blanks at its end.
fn trim_end(text: &[u8]) -> &[u8]
    ensures { result.now ≡ spec.trim_end text.now }
{
    text.split_at(text.len() - blanks_at_end(text)).0
}

/// The text without the blanks at both ends.
pub(crate) fn trim(text: &[u8]) -> &[u8]
    ensures { result.now ≡ spec.trimmed text.now }
{
    trim_end(trim_front(text))
}

/// What stands behind these bytes, where the text begins with them.
pub(crate) fn behind<'t>(text: &'t [u8], front: &[u8]) -> Option<&'t [u8]>
    ensures { option_map (λ rest. rest.now) result ≡ spec.behind front.now text.now }
{
    text.strip_prefix(front)
}

/// The first word, and what stands behind it. `None` where there are blanks alone.
pub(crate) fn next_word(text: &[u8]) -> Option<(&[u8], &[u8])>
    ensures words { MatchOption result (spec.words text.now ≡ [])
        (λ p. spec.words text.now ≡ p.0.now ∷ spec.words p.1.now) }
    ensures shorter { IfSome result (λ p. length p.1.now < length text.now) }
{
    let front = trim_front(text);
    if front.is_empty() {
        return None;
    }
    Some(front.split_at(word_len(front)))
}
