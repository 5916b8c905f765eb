//! Names of functions, as the canonical text spells them.
ghost use Rattle.std.specs.Prelude.{◌≡◌, ◌≢◌, None, IfOk};
ghost use Rattle.token_reader.specs.declared.stop.Stop.TheVariants.{NoMemory};
ghost use Rattle.clif_lex.specs.Spelling.{AreIn};
ghost use Rattle.test_directives.specs.Directives as spec;
ghost use Rattle.test_directives.specs.Names as spec_names;

use clif_lex::{LexErr, Tokens, tokens};
use clif_read::{RawFuncName, RawFunction, read_func_name};
use indexmap::IndexMap;
use ir_core::List;
use std::alloc::{AllocError, Global};
use token_reader::{Reader, Stop};

/// `u0:1`
fn spelled_user(alloc: Global, space: u64, number: i128) -> Result<Vec<u8>, AllocError>
    ensures { IfOk result (λ name. name.items ≡ spec.spelled_user space number) }
{
    let mut name = Vec::from_slice(alloc, b"u".as_slice())?;
    name.extend_from_slice(itoa::Buffer::new().format(space).as_bytes())?;
    name.extend_from_slice(b":".as_slice())?;
    name.extend_from_slice(itoa::Buffer::new().format(number).as_bytes())?;
    Ok(name)
}

/// `%name`
fn spelled_text(alloc: Global, text: &[u8]) -> Result<Vec<u8>, AllocError>
    ensures { IfOk result (λ name. name.items ≡ spec.spelled_text text.now) }
{
    let mut name = Vec::from_slice(alloc, b"%".as_slice())?;
    name.extend_from_slice(text)?;
    Ok(name)
}

/// The name of a function, spelled.
pub(crate) fn spelled_name(alloc: Global, name: &RawFuncName) -> Result<List<u8>, AllocError>
    ensures { IfOk result (λ spelled. spelled ≡ spec.spelled_name name.now) }
{
    let spelled = match name {
        RawFuncName::Text { name, .. } => spelled_text(alloc, name.as_slice())?,
        RawFuncName::User { space, number } => spelled_user(alloc, space.number, number.value)?,
    };
    Ok(List::from_vec(spelled))
}

/// The names of functions, spelled.
pub(crate) fn spelled_names(
    alloc: Global,
    functions: &[RawFunction],
) -> Result<Vec<List<u8>>, AllocError>
    ensures { IfOk result (λ list. list.items ≡ spec_names.names_of functions.now) }
{
    let mut list = Vec::new(alloc);
    for func in functions {
        list.push(spelled_name(alloc, &func.name)?)?;
    }
    Ok(list)
}

/// The places of names, which of a repeated one is the first.
pub(crate) fn first_places<'n>(
    alloc: Global,
    names: &'n [List<u8>],
) -> Result<IndexMap<&'n [u8], usize>, AllocError>
    ensures { IfOk result (spec_names.ArePlaces (λ k. k.now) names.now) }
{
    let mut places = IndexMap::new(alloc);
    for (place, name) in names.iter().enumerate() {
        if !places.contains_key(name.as_slice()) {
            places.insert(name.as_slice(), place)?;
        }
    }
    Ok(places)
}

/// The name that all of these tokens are, spelled. `None` where they are none.
fn name_by(alloc: Global, text: &[u8], tokens: &Tokens) -> Result<Option<List<u8>>, AllocError>
    requires { AreIn text.now tokens.now }
    ensures { IfOk result (λ name. name ≡ spec.name_by text.now tokens.now) }
{
    let mut reader = Reader::new(text, tokens, 0);
    match read_func_name(alloc, &mut reader) {
        Ok(name) => {
            if reader.is_at_end() {
                Ok(Some(spelled_name(alloc, &name)?))
            } else {
                Ok(None)
            }
        }
        Err(stop) => no_name(stop),
    }
}

/// No name, where the tokens are none.
fn no_name(stop: Stop) -> Result<Option<List<u8>>, AllocError>
    ensures none { IfOk result (λ name. name ≡ None) }
    ensures stop { IfOk result (λ _. stop ≢ NoMemory) }
{
    match stop {
        Stop::NoMemory => Err(AllocError),
        Stop::Syntax | Stop::UnknownOpcode | Stop::Unsupported => Ok(None),
    }
}

/// The name that a text without a comment is, spelled. `None` where it is none.
pub(crate) fn name_of(alloc: Global, text: &[u8]) -> Result<Option<List<u8>>, AllocError>
    ensures { IfOk result (λ name. name ≡ spec.name_of text.now) }
{
    if text.contains(&b';') {
        return Ok(None);
    }
    match tokens(alloc, text) {
        Ok(tokens) => name_by(alloc, text, &tokens),
        Err(LexErr::NoMemory) => Err(AllocError),
        Err(LexErr::BadChar(_) | LexErr::BadNumber(_)) => Ok(None),
    }
}
