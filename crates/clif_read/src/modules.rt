//! Blocks, functions and modules.

ghost use Rattle.std.specs.Prelude.{◌<◌, ◌≤◌, length, IfOk, IfSome};
ghost use Rattle.token_reader.specs.Reading.{Gives, same};
ghost use Rattle.clif_read.specs.Modules as spec;
ghost use Rattle.clif_read.specs.Texts.{Functions};

use crate::declarations::{read_decls, read_func_name};
use crate::heads::{read_block_params, read_headers};
use crate::lines::read_lines;
use crate::raw::{RawBlock, RawBlockParam, RawFunction, RawModule};
use crate::signatures::read_signature;
use clif_words::Class;
use ir_core::{Few, List};
use std::alloc::Global;
use token_reader::{Reader, Stop, start_list_in_room};

#[tactic(auto, unfolding(crate::specs::Modules::opt_block_params_at))]
fn read_opt_block_params(alloc: Global, reader: &mut Reader<'_>) -> Result<Few<RawBlockParam>, Stop>
    ensures is { Gives same reader.new result (spec.opt_block_params_at reader.old) }
    ensures shorter { IfOk result (λ _. length reader.new ≤ length reader.old) }
{
    if reader.next_is(Class::LeftParen) {
        read_block_params(alloc, reader)
    } else {
        Ok(Few::from_vec(Vec::new(alloc)))
    }
}

/// Whether `cold` stands there.
#[tactic(auto, unfolding(crate::specs::Modules::opt_cold_at))]
fn read_opt_cold(reader: &mut Reader<'_>) -> Result<bool, Stop>
    ensures is { Gives same reader.new result (spec.opt_cold_at reader.old) }
    ensures shorter { IfOk result (λ _. length reader.new ≤ length reader.old) }
{
    if reader.next_is(Class::Cold) {
        reader.take(Class::Cold)?;
        Ok(true)
    } else {
        Ok(false)
    }
}

/// A block.
#[tactic(auto, unfolding(crate::specs::Modules::block_at))]
fn read_block(alloc: Global, reader: &mut Reader<'_>) -> Result<RawBlock, Stop>
    ensures is { Gives same reader.new result (spec.block_at reader.old) }
    ensures shorter { IfOk result (λ _. length reader.new < length reader.old) }
{
    let block = reader.take(Class::Block)?;
    let params = read_opt_block_params(alloc, reader)?;
    let cold = read_opt_cold(reader)?;
    reader.take(Class::Colon)?;
    let lines = read_lines(alloc, reader)?;
    Ok(RawBlock {
        block,
        params,
        cold,
        lines: List::from_vec(lines),
    })
}

/// Blocks, after those in front.
fn read_more_blocks(
    alloc: Global,
    reader: &mut Reader<'_>,
    front: Vec<RawBlock>,
) -> Result<Vec<RawBlock>, Stop>
    ensures is { Gives (λ x. x.items) reader.new result (spec.more_blocks_at front.items reader.old) }
    ensures shorter { IfOk result (λ _. length reader.new ≤ length reader.old) }
{
    let mut list = front;
    'list: while reader.next_is(Class::Block) {
        let item = read_block(alloc, reader)?;
        list.push(item)?;
    }
    Ok(list)
}

/// For how many blocks there is room at first: for four where a second one follows, else for the first alone.
#[inline]
fn guess_block_count(reader: &Reader<'_>) -> usize {
    if reader.next_is(Class::Block) { 4 } else { 1 }
}

/// A function.
#[tactic(auto, unfolding(crate::specs::Modules::function_at))]
pub fn read_function(alloc: Global, reader: &mut Reader<'_>) -> Result<RawFunction, Stop>
    ensures is { Gives same reader.new result (spec.function_at reader.old) }
    ensures shorter { IfOk result (λ _. length reader.new < length reader.old) }
{
    let word = reader.take(Class::Function)?;
    let name = read_func_name(alloc, reader)?;
    let signature = read_signature(alloc, reader)?;
    reader.take(Class::LeftBrace)?;
    let decls = read_decls(alloc, reader)?;
    let first = read_block(alloc, reader)?;
    let front = start_list_in_room(alloc, first, guess_block_count(reader))?;
    let blocks = read_more_blocks(alloc, reader, front)?;
    let brace = reader.take(Class::RightBrace)?;
    Ok(RawFunction {
        spot: word.spot,
        name,
        signature,
        decls: List::from_vec(decls),
        blocks: List::from_vec(blocks),
        end_spot: brace.spot,
    })
}

/// The functions of a module.
pub(crate) fn read_functions(
    alloc: Global,
    reader: &mut Reader<'_>,
) -> Result<Vec<RawFunction>, Stop>
    ensures is { Gives (λ x. x.items) reader.new result (spec.functions_at reader.old) }
    ensures shorter { IfOk result (λ _. length reader.new ≤ length reader.old) }
{
    let mut list = Vec::new(alloc);
    'list: while reader.next_is(Class::Function) {
        let item = read_function(alloc, reader)?;
        list.push(item)?;
    }
    Ok(list)
}

/// The functions of all the tokens that are left. None where anything else stands there, or memory runs out.
pub fn read_all_functions(alloc: Global, reader: &mut Reader<'_>) -> Option<Vec<RawFunction>>
    ensures { IfSome result (λ found. Functions reader.old found.items) }
{
    let Ok(found) = read_functions(alloc, reader) else {
        return None;
    };
    if !reader.is_at_end() {
        return None;
    }
    Some(found)
}

/// Header lines, and functions.
#[tactic(auto, unfolding(crate::specs::Modules::module_at))]
fn read_module(alloc: Global, reader: &mut Reader<'_>) -> Result<RawModule, Stop>
    ensures is { Gives same reader.new result (spec.module_at reader.old) }
{
    let headers = read_headers(alloc, reader)?;
    let functions = read_functions(alloc, reader)?;
    Ok(RawModule {
        headers: List::from_vec(headers),
        functions: List::from_vec(functions),
    })
}

/// A module, and nothing behind it.
#[tactic(auto, unfolding(crate::specs::Modules::whole_module_at))]
pub fn read_whole_module(alloc: Global, reader: &mut Reader<'_>) -> Result<RawModule, Stop>
    ensures is { Gives same reader.new result (spec.whole_module_at reader.old) }
{
    let found = read_module(alloc, reader)?;
    if reader.is_at_end() {
        Ok(found)
    } else {
        Err(Stop::Syntax)
    }
}
