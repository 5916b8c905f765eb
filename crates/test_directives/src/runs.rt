//! What a `run:` says: a call, and what is wanted of it.
ghost use Rattle.std.specs.Prelude.{◌≡◌, option_map, IfOk};
ghost use Rattle.ir_core.specs.Lookup.{and_then};
ghost use Rattle.test_directives.specs.Directives as spec;
ghost use Rattle.test_directives.specs.Frame as frame;
ghost use Rattle.test_directives.specs.Views as views;

use crate::blanks::trim_front;
use crate::directives::{Directive, Expectation, Wanted};
use crate::marks::{Mark, begins, behind_mark, split_field};
use crate::names::name_of;
use crate::values::{expectation_of, numbers_of};
use std::alloc::{AllocError, Global};

/// The expectation behind `==` or `!=`, by the first byte of these.
#[tactic(auto, using(crate::proofs::RunReadings::signed_reads))]
fn signed_of(alloc: Global, text: &[u8], mark: Mark) -> Result<Option<Expectation>, AllocError>
    ensures { IfOk result (λ end. option_map views.expectation_of end
        ≡ frame.meaning (frame.signed mark) (spec.signed_value mark) text.now) }
{
    let Some(rest) = behind_mark(text, mark) else {
        return Ok(None);
    };
    let Some(back) = behind_mark(rest, Mark::Equals) else {
        return Ok(None);
    };
    expectation_of(alloc, back)
}

/// `==` and an expectation.
#[tactic(auto, using(crate::proofs::RunReadings::equal_reads))]
fn equal_of(alloc: Global, text: &[u8]) -> Result<Option<Wanted>, AllocError>
    ensures { IfOk result (λ wanted. option_map views.wanted_of wanted
        ≡ frame.meaning (frame.signed Mark.Equals) spec.equal_value text.now) }
{
    match signed_of(alloc, text, Mark::Equals)? {
        Some(end) => Ok(Some(Wanted::Equal(end))),
        None => Ok(None),
    }
}

/// `!=` and an expectation.
#[tactic(auto, using(crate::proofs::RunReadings::unequal_reads))]
fn unequal_of(alloc: Global, text: &[u8]) -> Result<Option<Wanted>, AllocError>
    ensures { IfOk result (λ wanted. option_map views.wanted_of wanted
        ≡ frame.meaning (frame.signed Mark.Bang) spec.unequal_value text.now) }
{
    match signed_of(alloc, text, Mark::Bang)? {
        Some(end) => Ok(Some(Wanted::Unequal(end))),
        None => Ok(None),
    }
}

/// What is wanted, by the text behind a call.
#[tactic(auto, using(crate::proofs::RunReadings::wanted_reads))]
fn wanted_of(alloc: Global, text: &[u8]) -> Result<Option<Wanted>, AllocError>
    ensures { IfOk result (λ wanted. option_map views.wanted_of wanted
        ≡ frame.meaning frame.wanted spec.wanted_value text.now) }
{
    let rest = trim_front(text);
    if rest.is_empty() {
        Ok(Some(Wanted::Return))
    } else if begins(rest, Mark::Equals) {
        equal_of(alloc, rest)
    } else {
        unequal_of(alloc, rest)
    }
}

/// The `run:` that the text behind the word is. `None` where it has no reading.
#[tactic(auto, using(crate::proofs::RunReadings::run_reads))]
pub(crate) fn run_of(alloc: Global, text: &[u8]) -> Result<Option<Directive>, AllocError>
    ensures { IfOk result (λ run. option_map views.directive_of run
        ≡ and_then (spec.run_of text.now) (λ call. Some (spec.Run call))) }
{
    let (front, back) = split_field(text);
    let Some(rest) = behind_mark(back, Mark::LeftParen) else {
        return Ok(None);
    };
    let (inner, end) = split_field(rest);
    let Some(behind) = behind_mark(end, Mark::RightParen) else {
        return Ok(None);
    };
    let Some(name) = name_of(alloc, front)? else {
        return Ok(None);
    };
    let Some(numbers) = numbers_of(alloc, inner)? else {
        return Ok(None);
    };
    match wanted_of(alloc, behind)? {
        Some(wanted) => Ok(Some(Directive::Run {
            name,
            numbers,
            wanted,
        })),
        None => Ok(None),
    }
}
