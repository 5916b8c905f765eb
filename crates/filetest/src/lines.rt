//! Lines, and where two lists of them differ.
ghost use Rattle.std.specs.Prelude.{◌≡◌, IfOk};
ghost use Rattle.filetest.specs.LineTests as defined;
ghost use Rattle.filetest.specs.Views as views;
ghost use Rattle.filetest.specs.Views.{failure_of};

use crate::report::Pair;
use ir_core::List;
use memchr::memmem;
use std::alloc::{AllocError, Global};

/// What stands for a line behind the last one.
pub(crate) const END: &[u8] = b"(end)";

/// The lines of a text, each of which has a line end.
pub(crate) fn split_lines<'t>(alloc: Global, text: &'t [u8]) -> Result<Vec<&'t [u8]>, AllocError>
    ensures { IfOk result (λ lines. views.seen_lines lines.items ≡ defined.split_lines text.now) }
{
    let mut lines = Vec::new(alloc);
    let mut start = 0;
    for i in 0..text.len() {
        if text[i] == b'\n' {
            lines.push(&text[start..i])?;
            start = i + 1;
        }
    }
    Ok(lines)
}

/// Whether a line contains a text. Takes time linear in the line, however long the text is.
pub(crate) fn contains(line: &[u8], text: &[u8]) -> bool
    ensures { result ≡ defined.contains text.now line.now }
{
    if text.len() > line.len() {
        return false;
    }
    memmem::find(line, text).is_some()
}

/// The first lines that differ, `(end)` where one is missing.
pub(crate) fn difference(
    alloc: Global,
    expected: &[List<u8>],
    got: &[&[u8]],
) -> Result<Option<Pair>, AllocError>
    ensures { IfOk result (λ failure. failure_of failure
        ≡ defined.difference expected.now (views.seen_lines got.now)) }
{
    let common = expected.len().min(got.len());
    for i in 0..common {
        let wanted = expected[i].as_slice();
        if wanted != got[i] {
            return Ok(Some(Pair::of(alloc, wanted, got[i])?));
        }
    }
    if common < expected.len() {
        Ok(Some(Pair::of(alloc, expected[common].as_slice(), END)?))
    } else if common < got.len() {
        Ok(Some(Pair::of(alloc, END, got[common])?))
    } else {
        Ok(None)
    }
}
