//! Lists of numbers.
ghost use Rattle.std.specs.Prelude.{◌≡◌, ◌+◌, ◌≤◌, ◌^◌, map, IfOk};
ghost use Rattle.ir_core.specs.Lists.{Each};
ghost use Rattle.ir_core.specs.declared.instructions.Arg.TheVariants as arg;
ghost use Rattle.ir_semantics.specs.Splice.{from};
ghost use Rattle.inline_body.specs.Named.{names_of, Moves};

use crate::names::Names;
use ir_core::{Arg, Few, Value, Values};
use std::alloc::{AllocError, Global};

/// The values as arguments of a target.
pub fn args_of_values(alloc: Global, values: &[Value]) -> Result<Few<Arg>, AllocError>
    ensures { IfOk result (λ list. list ≡ map arg.Value values.now) }
{
    match values {
        [value] => Ok(Few::one(Arg::Value(*value))),
        _ => many_args_of_values(alloc, values),
    }
}

/// The values as arguments of a target, however many.
fn many_args_of_values(alloc: Global, values: &[Value]) -> Result<Few<Arg>, AllocError>
    ensures { IfOk result (λ list. list ≡ map arg.Value values.now) }
{
    let mut list = Vec::with_capacity(alloc, values.len())?;
    for value in values {
        list.push(Arg::Value(*value))?;
    }
    Ok(Few::from_vec(list))
}

/// The numbers of a callee's values in the caller.
pub fn renumber_values(alloc: Global, names: &Names, values: &[Value]) -> Result<Values, AllocError>
    requires { Each (Moves names.now.values) values.now }
    ensures { IfOk result (λ list. list ≡ map (names_of names.now).value values.now) }
{
    Values::from_shifted(alloc, values, names.values)
}

/// So many values from a number on. None or one takes no memory.
pub fn new_values(alloc: Global, start: u32, count: u32) -> Result<Values, AllocError>
    requires { start + count ≤ 2 ^ 32 }
    ensures { IfOk result (λ list. list ≡ map (λ i. start + i) (from 0 count)) }
{
    match count {
        0 => Ok(Values::none()),
        1 => Ok(Values::one(Value::new(start))),
        _ => many_new_values(alloc, start, count),
    }
}

/// So many values from a number on, however many.
fn many_new_values(alloc: Global, start: u32, count: u32) -> Result<Values, AllocError>
    requires { start + count ≤ 2 ^ 32 }
    ensures { IfOk result (λ list. list ≡ map (λ i. start + i) (from 0 count)) }
{
    let mut list = Vec::with_capacity(alloc, count as usize)?;
    for index in 0..count {
        list.push(Value::new(start + index))?;
    }
    Ok(Values::from_slice(alloc, list.as_slice())?)
}
