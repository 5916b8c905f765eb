//! The beginnings of lines.

ghost use Rattle.std.specs.Prelude.{◌≡◌, ◌<◌, ◌≤◌, ◌⊎◌, ℕ, length};
ghost use Rattle.clif_lex.specs.Stretches.{IsCut, IsLineWith};

use memchr::memmem::Finder;

/// The first place behind another at which a line begins with these bytes, or the text's end.
pub fn next_line_with(text: &[u8], from: usize, word: &[u8]) -> usize
    requires { from ≤ length text.now }
    ensures forward { from ≤ result }
    ensures cut { IsCut text.now result }
    ensures there { (result ≡ length text.now) ⊎ ((from < result) × IsLineWith word.now text.now result) }
    ensures none_before { (at : ℕ) → from < at → at < result → IsLineWith word.now text.now at → ⊥ }
{
    let finder = Finder::new(word);
    let mut at = from;
    'words: while at < text.len() {
        let Some(length) = finder.find(text.split_at(at + 1).1) else {
            return text.len();
        };
        at += length + 1;
        if text[at - 1] == b'\n' {
            return at;
        }
    }
    text.len()
}
