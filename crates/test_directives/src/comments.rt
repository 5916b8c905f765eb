//! What a comment is to a test.
ghost use Rattle.std.specs.Prelude.{◌≡◌, if◌then◌else◌, option_map, IfOk};
ghost use Rattle.test_directives.specs.Directives as spec;
ghost use Rattle.test_directives.specs.Views as views;

use crate::blanks::{behind, trim, trim_front};
use crate::directives::{Directive, LineCheck, LineTest};
use crate::runs::run_of;
use crate::values::script_of;
use ir_core::List;
use std::alloc::{AllocError, Global};

/// What a comment is: no directive, one, or one without a reading.
#[derive(Drop)]
pub(crate) enum Comment {
    Plain,
    Asks(Directive),
    Bad,
}

/// A directive with a reading, or a bad one.
fn or_bad(directive: Option<Directive>) -> Comment
    ensures { views.comment_of result ≡ spec.or_bad (option_map views.directive_of directive) }
{
    match directive {
        Some(directive) => Comment::Asks(directive),
        None => Comment::Bad,
    }
}

fn host_of(alloc: Global, text: &[u8]) -> Result<Option<Directive>, AllocError>
    ensures { IfOk result (λ host. option_map views.directive_of host ≡ spec.host_of text.now) }
{
    match script_of(alloc, text)? {
        Some(script) => Ok(Some(Directive::Host(script))),
        None => Ok(None),
    }
}

/// A copy of a text.
fn copy_bytes(alloc: Global, text: &[u8]) -> Result<List<u8>, AllocError>
    ensures { IfOk result (λ copy. copy ≡ text.now) }
{
    Ok(List::from_vec(Vec::from_slice(alloc, text)?))
}

/// A test of lines with a text, which is not empty and has no `$`.
fn line_directive(
    alloc: Global,
    check: LineCheck,
    text: &[u8],
) -> Result<Option<Directive>, AllocError>
    ensures { IfOk result (λ lines. option_map views.directive_of lines
        ≡ spec.line_directive (views.line_test_by check) text.now) }
{
    let text = trim(text);
    if text.is_empty() || text.contains(&b'$') {
        return Ok(None);
    }
    let text = copy_bytes(alloc, text)?;
    Ok(Some(Directive::Line(LineTest { check, text })))
}

/// Whether the text begins with the word of a directive that is left out.
fn is_left_out(text: &[u8]) -> bool
    ensures { spec.by_readings spec.left_out text.now ≡ (if result then spec.Bad else spec.Plain) }
{
    behind(text, b"sameln:".as_slice()).is_some()
        || behind(text, b"unordered:".as_slice()).is_some()
        || behind(text, b"regex:".as_slice()).is_some()
}

/// What a comment is, which begins with its `;`.
pub(crate) fn comment_of(alloc: Global, comment: &[u8]) -> Result<Comment, AllocError>
    ensures { IfOk result (λ read. views.comment_of read ≡ spec.comment_of comment.now) }
{
    let Some((_, rest)) = comment.split_first() else {
        return Ok(Comment::Plain);
    };
    let text = trim_front(rest);
    if let Some(text) = behind(text, b"run:".as_slice()) {
        Ok(or_bad(run_of(alloc, text)?))
    } else if let Some(text) = behind(text, b"host:".as_slice()) {
        Ok(or_bad(host_of(alloc, text)?))
    } else if let Some(text) = behind(text, b"trace:".as_slice()) {
        Ok(Comment::Asks(Directive::Trace(copy_bytes(alloc, trim(text))?)))
    } else if let Some(text) = behind(text, b"check:".as_slice()) {
        Ok(or_bad(line_directive(alloc, LineCheck::Check, text)?))
    } else if let Some(text) = behind(text, b"nextln:".as_slice()) {
        Ok(or_bad(line_directive(alloc, LineCheck::Nextln, text)?))
    } else if let Some(text) = behind(text, b"not:".as_slice()) {
        Ok(or_bad(line_directive(alloc, LineCheck::Not, text)?))
    } else if let Some(_) = behind(text, b"error:".as_slice()) {
        Ok(Comment::Asks(Directive::Error))
    } else if is_left_out(text) {
        Ok(Comment::Bad)
    } else {
        Ok(Comment::Plain)
    }
}
