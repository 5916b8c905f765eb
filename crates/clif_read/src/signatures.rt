//! Signatures.

ghost use Rattle.std.specs.Prelude.{◌≡◌, ◌<◌, ◌≤◌, length, IfOk};
ghost use Rattle.token_reader.specs.Reading.{Gives, same};
ghost use Rattle.clif_read.specs.Signatures as spec;

use crate::attributes::read_attributes;
use crate::raw::{RawParam, RawSignature};
use clif_words::{Class, Terminal, Word};
use ir_core::{Conv, Few, List};
use std::alloc::Global;
use token_reader::{Items, Reader, Stop, read_few_items, read_type};

/// A parameter or a result.
#[tactic(auto, unfolding(crate::specs::Signatures::param_at))]
fn read_param(alloc: Global, reader: &mut Reader<'_>) -> Result<RawParam, Stop>
    ensures is { Gives same reader.new result (spec.param_at reader.old) }
    ensures shorter { IfOk result (λ _. length reader.new < length reader.old) }
{
    let ty = read_type(reader)?;
    let attributes = read_attributes(alloc, reader)?;
    Ok(RawParam {
        ty,
        attributes: List::from_vec(attributes),
    })
}

struct ParamItems;

impl Items<RawParam> for ParamItems {
    ghost item_at = { λ _. spec.param_at };

    #[inline]
    fn read_item(&self, alloc: Global, reader: &mut Reader<'_>) -> Result<RawParam, Stop> {
        read_param(alloc, reader)
    }
}

fn read_params(alloc: Global, reader: &mut Reader<'_>) -> Result<Few<RawParam>, Stop>
    ensures is { Gives same reader.new result (spec.params_at reader.old) }
    ensures shorter { IfOk result (λ _. length reader.new < length reader.old) }
{
    read_few_items(alloc, reader, &ParamItems)
}

#[tactic(auto, unfolding(crate::specs::Signatures::opt_params_at))]
fn read_opt_params(alloc: Global, reader: &mut Reader<'_>) -> Result<Few<RawParam>, Stop>
    ensures is { Gives same reader.new result (spec.opt_params_at reader.old) }
    ensures shorter { IfOk result (λ _. length reader.new ≤ length reader.old) }
{
    if reader.next_is_one_of(Class::Ty, Class::TyI64, Class::RefusedType) {
        read_params(alloc, reader)
    } else {
        Ok(Few::from_vec(Vec::new(alloc)))
    }
}

/// An arrow and results.
#[tactic(auto, unfolding(crate::specs::Signatures::results_at))]
fn read_results(alloc: Global, reader: &mut Reader<'_>) -> Result<Few<RawParam>, Stop>
    ensures is { Gives same reader.new result (spec.results_at reader.old) }
    ensures shorter { IfOk result (λ _. length reader.new < length reader.old) }
{
    reader.take(Class::Arrow)?;
    read_params(alloc, reader)
}

#[tactic(auto, unfolding(crate::specs::Signatures::opt_results_at))]
fn read_opt_results(alloc: Global, reader: &mut Reader<'_>) -> Result<Few<RawParam>, Stop>
    ensures is { Gives same reader.new result (spec.opt_results_at reader.old) }
    ensures shorter { IfOk result (λ _. length reader.new ≤ length reader.old) }
{
    if reader.next_is(Class::Arrow) {
        read_results(alloc, reader)
    } else {
        Ok(Few::from_vec(Vec::new(alloc)))
    }
}

/// A calling convention.
#[tactic(auto, unfolding(crate::specs::Signatures::convention_at, token_reader::specs::Reading::name_at))]
#[inline(never)]
fn read_convention(reader: &mut Reader<'_>) -> Result<Conv, Stop>
    ensures is { Gives same reader.new result (spec.convention_at reader.old) }
    ensures shorter { IfOk result (λ _. length reader.new < length reader.old) }
{
    match reader.next_terminal() {
        Some(Terminal::Word(Word::Conv(convention))) => {
            reader.advance();
            Ok(convention)
        }
        _ => Err(Stop::Syntax),
    }
}

#[tactic(auto, unfolding(crate::specs::Signatures::opt_convention_at))]
fn read_opt_convention(reader: &mut Reader<'_>) -> Result<Option<Conv>, Stop>
    ensures is { Gives same reader.new result (spec.opt_convention_at reader.old) }
    ensures shorter { IfOk result (λ _. length reader.new ≤ length reader.old) }
{
    if reader.next_is_either(Class::Conv, Class::Cold) {
        Ok(Some(read_convention(reader)?))
    } else {
        Ok(None)
    }
}

/// A signature.
#[tactic(auto, unfolding(crate::specs::Signatures::signature_at))]
pub(crate) fn read_signature(alloc: Global, reader: &mut Reader<'_>) -> Result<RawSignature, Stop>
    ensures is { Gives same reader.new result (spec.signature_at reader.old) }
    ensures shorter { IfOk result (λ _. length reader.new < length reader.old) }
{
    reader.take(Class::LeftParen)?;
    let params = read_opt_params(alloc, reader)?;
    reader.take(Class::RightParen)?;
    let results = read_opt_results(alloc, reader)?;
    let conv = read_opt_convention(reader)?;
    Ok(RawSignature {
        params,
        results,
        conv,
    })
}
