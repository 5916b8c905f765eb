//! Lines and columns.

ghost use Rattle.std.specs.Prelude.{◌≡◌, ◌≤◌, length};
ghost use Rattle.std.specs.List.{suffix_len};
ghost use Rattle.clif_lex.specs.Bytes.{is_no_line_feed};
ghost use Rattle.clif_lex.specs.Places as spec;

use crate::faults::Place;

/// How many bytes stand behind the last line feed.
#[inline]
fn last_line_len(text: &[u8]) -> usize
    ensures len { result ≡ suffix_len is_no_line_feed text.now }
    ensures within { result ≤ length text.now }
{
    text.iter().rev().take_while(|c| **c != b'\n').count()
}

/// The place of a byte, or of the end of the text.
pub fn place(text: &[u8], spot: usize) -> Place
    requires within { spot ≤ length text.now }
    requires short { length text.now ≤ 4294967294 }
    ensures line { result.line ≡ spec.line_at text.now spot }
    ensures column { result.column ≡ spec.column_at text.now spot }
{
    let before = &text[..spot];
    let lines = before.iter().filter(|c| **c == b'\n').count();
    Place {
        line: 1 + lines as u32,
        column: 1 + last_line_len(before) as u32,
    }
}
