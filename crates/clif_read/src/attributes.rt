//! Attributes of parameters and results.

ghost use Rattle.std.specs.Prelude.{◌≡◌, ◌∷◌, [], ◌<◌, ◌≤◌, length, IfOk, IfErr};
ghost use Rattle.clif_words.specs.Seen.{extension_place};
ghost use Rattle.token_reader.specs.declared.stop.Stop.TheVariants.{NoMemory};
ghost use Rattle.token_reader.specs.Reading.{Gives, same};
ghost use Rattle.clif_read.specs.DeclarationValues as values;
ghost use Rattle.clif_read.specs.Attributes as spec;

use crate::raw::RawAttribute;
use clif_words::{Class, Extension, Terminal, Word};
use std::alloc::Global;
use token_reader::{Reader, Stop, start_list};

/// The attribute that an extension is.
fn to_raw_extension(extension: Extension) -> RawAttribute
    ensures { result ≡ values.ext_of (extension_place extension) }
{
    match extension {
        Extension::Uext => RawAttribute::Uext,
        Extension::Sext => RawAttribute::Sext,
    }
}

/// `uext` or `sext`.
#[tactic(auto, unfolding(crate::specs::Attributes::ext_at, token_reader::specs::Reading::name_at))]
fn read_ext(reader: &mut Reader<'_>) -> Result<RawAttribute, Stop>
    ensures is { Gives same reader.new result (spec.ext_at reader.old) }
    ensures shorter { IfOk result (λ _. length reader.new < length reader.old) }
{
    match reader.next_terminal() {
        Some(Terminal::Word(Word::Ext(extension))) => {
            reader.advance();
            Ok(to_raw_extension(extension))
        }
        _ => Err(Stop::Syntax),
    }
}

/// `vmctx` or `sret`.
#[tactic(auto, unfolding(crate::specs::Attributes::purpose_at))]
fn read_purpose(reader: &mut Reader<'_>) -> Result<RawAttribute, Stop>
    ensures is { Gives same reader.new result (spec.purpose_at reader.old) }
    ensures shorter { IfOk result (λ _. length reader.new < length reader.old) }
{
    if reader.next_is(Class::Vmctx) {
        reader.take(Class::Vmctx)?;
        Ok(RawAttribute::Vmctx)
    } else {
        reader.take(Class::Sret)?;
        Ok(RawAttribute::Sret)
    }
}

fn pair_attributes(
    alloc: Global,
    first: RawAttribute,
    second: RawAttribute,
) -> Result<Vec<RawAttribute>, Stop>
    ensures some { IfOk result (λ list. list.items ≡ first ∷ second ∷ []) }
    ensures none { IfErr result (λ e. e ≡ NoMemory) }
{
    let mut list = Vec::with_capacity(alloc, 2)?;
    list.push(first)?;
    list.push(second)?;
    Ok(list)
}

/// This attribute, and perhaps `vmctx` or `sret` behind it.
#[tactic(auto, unfolding(crate::specs::Attributes::opt_purpose_at))]
fn read_opt_purpose(
    alloc: Global,
    reader: &mut Reader<'_>,
    first: RawAttribute,
) -> Result<Vec<RawAttribute>, Stop>
    ensures is { Gives (λ x. x.items) reader.new result (spec.opt_purpose_at first reader.old) }
    ensures shorter { IfOk result (λ _. length reader.new ≤ length reader.old) }
{
    if reader.next_is_either(Class::Vmctx, Class::Sret) {
        let second = read_purpose(reader)?;
        pair_attributes(alloc, first, second)
    } else {
        start_list(alloc, first)
    }
}

/// This attribute, and perhaps `uext` or `sext` behind it.
#[tactic(auto, unfolding(crate::specs::Attributes::opt_ext_at))]
fn read_opt_ext(
    alloc: Global,
    reader: &mut Reader<'_>,
    first: RawAttribute,
) -> Result<Vec<RawAttribute>, Stop>
    ensures is { Gives (λ x. x.items) reader.new result (spec.opt_ext_at first reader.old) }
    ensures shorter { IfOk result (λ _. length reader.new ≤ length reader.old) }
{
    if reader.next_is(Class::Ext) {
        let second = read_ext(reader)?;
        pair_attributes(alloc, first, second)
    } else {
        start_list(alloc, first)
    }
}

#[tactic(auto, unfolding(crate::specs::Attributes::ext_first_at))]
fn read_ext_first(alloc: Global, reader: &mut Reader<'_>) -> Result<Vec<RawAttribute>, Stop>
    ensures is { Gives (λ x. x.items) reader.new result (spec.ext_first_at reader.old) }
    ensures shorter { IfOk result (λ _. length reader.new < length reader.old) }
{
    let first = read_ext(reader)?;
    read_opt_purpose(alloc, reader, first)
}

#[tactic(auto, unfolding(crate::specs::Attributes::purpose_first_at))]
fn read_purpose_first(alloc: Global, reader: &mut Reader<'_>) -> Result<Vec<RawAttribute>, Stop>
    ensures is { Gives (λ x. x.items) reader.new result (spec.purpose_first_at reader.old) }
    ensures shorter { IfOk result (λ _. length reader.new < length reader.old) }
{
    let first = read_purpose(reader)?;
    read_opt_ext(alloc, reader, first)
}

#[tactic(auto, unfolding(crate::specs::Attributes::some_attributes_at))]
fn read_some_attributes(alloc: Global, reader: &mut Reader<'_>) -> Result<Vec<RawAttribute>, Stop>
    ensures is { Gives (λ x. x.items) reader.new result (spec.some_attributes_at reader.old) }
    ensures shorter { IfOk result (λ _. length reader.new < length reader.old) }
{
    if reader.next_is(Class::Ext) {
        read_ext_first(alloc, reader)
    } else {
        read_purpose_first(alloc, reader)
    }
}

/// Attributes in any order: of `uext` and `sext` at most one, and of `vmctx` and `sret`.
#[tactic(auto, unfolding(crate::specs::Attributes::attributes_at))]
pub(crate) fn read_attributes(
    alloc: Global,
    reader: &mut Reader<'_>,
) -> Result<Vec<RawAttribute>, Stop>
    ensures is { Gives (λ x. x.items) reader.new result (spec.attributes_at reader.old) }
    ensures shorter { IfOk result (λ _. length reader.new ≤ length reader.old) }
{
    if reader.next_is_one_of(Class::Ext, Class::Vmctx, Class::Sret) {
        read_some_attributes(alloc, reader)
    } else {
        Ok(Vec::new(alloc))
    }
}
