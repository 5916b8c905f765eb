//! Numbers, and the ends that a run may be expected to have.
ghost use Rattle.std.specs.Prelude.{◌≡◌, map, option_map, IfOk};
ghost use Rattle.host_script.specs.Script.{replies_of, reply_of};
ghost use Rattle.test_directives.specs.Directives as spec;
ghost use Rattle.test_directives.specs.Frame as frame;
ghost use Rattle.test_directives.specs.Views as views;

use crate::blanks::trim_front;
use crate::directives::Expectation;
use crate::marks::{Mark, are_plain, begins, behind_mark, split_field};
use host_script::{Act, Reply, Script};
use ir_core::List;
use script_text::{ScriptErr, number_list, script};
use std::alloc::{AllocError, Global};

/// The numbers that a text is, joined by commas. `None` where it is no such list.
pub(crate) fn numbers_of(alloc: Global, text: &[u8]) -> Result<Option<List<i128>>, AllocError>
    ensures { IfOk result (λ numbers. numbers ≡ spec.values_of text.now) }
{
    let Ok(text) = str::from_utf8(text) else {
        return Ok(None);
    };
    match number_list(alloc, text) {
        Ok(numbers) => Ok(Some(List::from_vec(numbers))),
        Err(ScriptErr::BadScript(_)) => Ok(None),
        Err(ScriptErr::NoMemory) => Err(AllocError),
    }
}

/// The script that a text is. `None` where it is none.
pub(crate) fn script_of(alloc: Global, text: &[u8]) -> Result<Option<Script>, AllocError>
    ensures { IfOk result (λ script. option_map replies_of script ≡ spec.replies_of text.now) }
{
    let Ok(text) = str::from_utf8(text) else {
        return Ok(None);
    };
    match script(alloc, text) {
        Ok(script) => Ok(Some(script)),
        Err(ScriptErr::BadScript(_)) => Ok(None),
        Err(ScriptErr::NoMemory) => Err(AllocError),
    }
}

/// The trap or throw that is the only reply, without writes.
fn stop_of_replies(replies: &[Reply]) -> Option<Expectation>
    ensures { option_map views.expectation_of result ≡ spec.stop_of_script (map reply_of replies.now) }
{
    let [reply] = replies else {
        return None;
    };
    if !reply.writes.as_slice().is_empty() {
        return None;
    }
    match &reply.act {
        Act::Return(_) => None,
        Act::Trap(code) => Some(Expectation::Trap(*code)),
        Act::Throw { tag, p0, p1 } => Some(Expectation::Throw {
            tag: *tag,
            p0: *p0,
            p1: *p1,
        }),
    }
}

/// The trap or throw that a text is.
fn stop_of(alloc: Global, text: &[u8]) -> Result<Option<Expectation>, AllocError>
    ensures { IfOk result (λ stop. option_map views.expectation_of stop ≡ spec.stop_of text.now) }
{
    match script_of(alloc, text)? {
        Some(script) => Ok(stop_of_replies(script.replies.as_slice())),
        None => Ok(None),
    }
}

/// The number that a list of one number is.
fn one_of(numbers: List<i128>) -> Option<Expectation>
    ensures { option_map views.expectation_of result ≡ spec.one_of numbers }
{
    if numbers.as_slice().len() == 1 {
        Some(Expectation::Values(numbers))
    } else {
        None
    }
}

/// A number, a trap or a throw.
fn plain_expectation(alloc: Global, text: &[u8]) -> Result<Option<Expectation>, AllocError>
    ensures { IfOk result (λ end. option_map views.expectation_of end ≡ spec.plain_expectation text.now) }
{
    match numbers_of(alloc, text)? {
        Some(numbers) => Ok(one_of(numbers)),
        None => stop_of(alloc, text),
    }
}

/// A number, a trap or a throw, by its marks.
#[tactic(auto, using(crate::proofs::RunReadings::plain_reads))]
fn plain_of(alloc: Global, text: &[u8]) -> Result<Option<Expectation>, AllocError>
    ensures { IfOk result (λ end. option_map views.expectation_of end
        ≡ frame.meaning frame.plain spec.plain_value text.now) }
{
    let Some(rest) = behind_mark(text, Mark::Other) else {
        return Ok(None);
    };
    if are_plain(rest) {
        plain_expectation(alloc, text)
    } else {
        Ok(None)
    }
}

/// Numbers in brackets.
#[tactic(auto, using(crate::proofs::RunReadings::listed_reads))]
fn listed_of(alloc: Global, text: &[u8]) -> Result<Option<Expectation>, AllocError>
    ensures { IfOk result (λ end. option_map views.expectation_of end
        ≡ frame.meaning frame.listed spec.listed_value text.now) }
{
    let Some(rest) = behind_mark(text, Mark::LeftBracket) else {
        return Ok(None);
    };
    let (inner, back) = split_field(rest);
    let Some(behind) = behind_mark(back, Mark::RightBracket) else {
        return Ok(None);
    };
    if !trim_front(behind).is_empty() {
        return Ok(None);
    }
    match numbers_of(alloc, inner)? {
        Some(numbers) => Ok(Some(Expectation::Values(numbers))),
        None => Ok(None),
    }
}

/// A number, numbers in brackets, a trap or a throw.
#[tactic(auto, using(crate::proofs::RunReadings::expectation_reads))]
pub(crate) fn expectation_of(alloc: Global, text: &[u8]) -> Result<Option<Expectation>, AllocError>
    ensures { IfOk result (λ end. option_map views.expectation_of end
        ≡ frame.meaning frame.expectation spec.expectation_value text.now) }
{
    let rest = trim_front(text);
    if begins(rest, Mark::LeftBracket) {
        listed_of(alloc, rest)
    } else {
        plain_of(alloc, rest)
    }
}
