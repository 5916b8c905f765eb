//! What stands at the head of a module and of a block.

ghost use Rattle.std.specs.Prelude.{◌<◌, ◌≤◌, length, IfOk};
ghost use Rattle.token_reader.specs.Reading.{Gives, same};
ghost use Rattle.clif_read.specs.Heads as spec;

use crate::raw::RawBlockParam;
use clif_words::Class;
use ir_core::Few;
use std::alloc::Global;
use token_reader::{Items, Reader, Stop, read_few_items, read_type};

/// The spot of a header line.
#[tactic(auto, unfolding(crate::specs::Heads::header_at))]
fn read_header(reader: &mut Reader<'_>) -> Result<usize, Stop>
    ensures is { Gives same reader.new result (spec.header_at reader.old) }
    ensures shorter { IfOk result (λ _. length reader.new < length reader.old) }
{
    let word = reader.take(Class::Header)?;
    Ok(word.spot)
}

/// The spots of the header lines of a module.
pub(crate) fn read_headers(alloc: Global, reader: &mut Reader<'_>) -> Result<Vec<usize>, Stop>
    ensures is { Gives (λ x. x.items) reader.new result (spec.headers_at reader.old) }
    ensures shorter { IfOk result (λ _. length reader.new ≤ length reader.old) }
{
    let mut list = Vec::new(alloc);
    'list: while reader.next_is(Class::Header) {
        let item = read_header(reader)?;
        list.push(item)?;
    }
    Ok(list)
}

/// `v0: i64`
#[tactic(auto, unfolding(crate::specs::Heads::block_param_at))]
fn read_block_param(reader: &mut Reader<'_>) -> Result<RawBlockParam, Stop>
    ensures is { Gives same reader.new result (spec.block_param_at reader.old) }
    ensures shorter { IfOk result (λ _. length reader.new < length reader.old) }
{
    let value = reader.take(Class::Value)?;
    reader.take(Class::Colon)?;
    let ty = read_type(reader)?;
    Ok(RawBlockParam { value, ty })
}

struct BlockParamItems;

impl Items<RawBlockParam> for BlockParamItems {
    ghost item_at = { λ _. spec.block_param_at };

    #[inline]
    fn read_item(&self, _alloc: Global, reader: &mut Reader<'_>) -> Result<RawBlockParam, Stop> {
        read_block_param(reader)
    }
}

/// The parameters of a block: `(v0: i64, v1: i32)`
#[tactic(auto, unfolding(crate::specs::Heads::block_params_at))]
pub(crate) fn read_block_params(
    alloc: Global,
    reader: &mut Reader<'_>,
) -> Result<Few<RawBlockParam>, Stop>
    ensures is { Gives same reader.new result (spec.block_params_at reader.old) }
    ensures shorter { IfOk result (λ _. length reader.new < length reader.old) }
{
    reader.take(Class::LeftParen)?;
    let list = if reader.next_is(Class::Value) {
        read_few_items(alloc, reader, &BlockParamItems)?
    } else {
        Few::from_vec(Vec::new(alloc))
    };
    reader.take(Class::RightParen)?;
    Ok(list)
}
