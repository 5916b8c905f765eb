//! Tests of the lines of a text.
ghost use Rattle.std.specs.Prelude.{◌≡◌, false, [], map, IfOk};
ghost use Rattle.test_directives.specs.Views.{line_test_of};
ghost use Rattle.filetest.specs.LineTests as defined;
ghost use Rattle.filetest.specs.Taking.{IsPlaceWith, IsTaken, line_looked_at};
ghost use Rattle.filetest.specs.Taking as taking;
ghost use Rattle.filetest.specs.Judging.{IsJudged};
ghost use Rattle.filetest.specs.Views.{failure_of, seen_lines, texts_of};

use crate::lines::{END, contains};
use crate::report::Pair;
use std::alloc::{AllocError, Global};
use test_directives::{LineCheck, LineTest};

/// The place of the first line that contains the text.
fn place_with(lines: &[&[u8]], text: &[u8]) -> Option<usize>
    ensures { IsPlaceWith text.now (seen_lines lines.now) result }
{
    for i in 0..lines.len() {
        if contains(lines[i], text) {
            return Some(i);
        }
    }
    None
}

/// The failure of the first of these tests, each a `not:`, whose text a line of the range contains.
fn found_any(alloc: Global, nots: &[LineTest], range: &[&[u8]]) -> Result<Option<Pair>, AllocError>
    ensures { IfOk result (λ failure. failure_of failure
        ≡ defined.found_any (texts_of nots.now) (seen_lines range.now)) }
{
    for i in 0..nots.len() {
        let text = nots[i].text.as_slice();
        if let Some(at) = place_with(range, text) {
            return Ok(Some(Pair::of(alloc, text, range[at])?));
        }
    }
    Ok(None)
}

/// Whether it is a `not:`.
fn is_not(test: &LineTest) -> bool
    ensures { result ≡ taking.is_not (line_test_of test.now) }
{
    match test.check {
        LineCheck::Not => true,
        _ => false,
    }
}

/// The place of the line that a `check:` or `nextln:` takes.
fn taken_place(test: &LineTest, left: &[&[u8]]) -> Option<usize>
    requires { taking.is_not (line_test_of test.now) ≡ false }
    ensures { IsTaken (line_test_of test.now) (seen_lines left.now) result }
{
    let text = test.text.as_slice();
    match test.check {
        LineCheck::Nextln => match left.first() {
            Some(line) if contains(line, text) => Some(0),
            _ => None,
        },
        _ => place_with(left, text),
    }
}

/// What stands in place of the line that a `check:` or `nextln:` does not find.
fn looked_at<'t>(test: &LineTest, left: &[&'t [u8]]) -> &'t [u8]
    ensures { result.now ≡ line_looked_at (line_test_of test.now) (seen_lines left.now) }
{
    match test.check {
        LineCheck::Nextln if !left.is_empty() => left[0],
        _ => END,
    }
}

/// What a `check:` or `nextln:` comes to: it takes a line, or fails, as it does where a `not:` before it does.
#[derive(Drop)]
pub(crate) enum Judgement {
    Takes(usize),
    Fails(Pair),
}

/// Judges a `check:` or `nextln:` with the `not:` before it.
fn judge(
    alloc: Global,
    nots: &[LineTest],
    test: &LineTest,
    left: &[&[u8]],
) -> Result<Judgement, AllocError>
    requires { taking.is_not (line_test_of test.now) ≡ false }
    ensures { IfOk result (IsJudged (texts_of nots.now) (line_test_of test.now) (seen_lines left.now)) }
{
    match taken_place(test, left) {
        Some(at) => match found_any(alloc, nots, &left[..at])? {
            Some(pair) => Ok(Judgement::Fails(pair)),
            None => Ok(Judgement::Takes(at)),
        },
        None => match found_any(alloc, nots, left)? {
            Some(pair) => Ok(Judgement::Fails(pair)),
            None => {
                let pair = Pair::of(alloc, test.text.as_slice(), looked_at(test, left))?;
                Ok(Judgement::Fails(pair))
            }
        },
    }
}

/// The failure of the first test that fails. Each line is compared with the `check:` and `nextln:` that may take it,
/// and with each `not:` of its range.
pub(crate) fn lines_failure(
    alloc: Global,
    tests: &[LineTest],
    lines: &[&[u8]],
) -> Result<Option<Pair>, AllocError>
    ensures { IfOk result (λ failure. failure_of failure
        ≡ defined.failure [] (seen_lines lines.now) (map line_test_of tests.now)) }
{
    // The lines behind the last taken one, and the place behind the test that took it.
    let mut left = lines;
    let mut judged = 0;
    for i in 0..tests.len() {
        if !is_not(&tests[i]) {
            match judge(alloc, &tests[judged..i], &tests[i], left)? {
                Judgement::Fails(pair) => return Ok(Some(pair)),
                Judgement::Takes(at) => {
                    left = &left[at + 1..];
                    judged = i + 1;
                }
            }
        }
    }
    found_any(alloc, &tests[judged..], left)
}
