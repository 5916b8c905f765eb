//! What frames do.
ghost use Rattle.std.specs.Prelude.{◌≡◌, IfOk};
ghost use Rattle.std.specs.Option.{option_map};
ghost use Rattle.clk_num.specs.Views.{data_of, data_of_all};
ghost use Rattle.ir_semantics.specs.Values.{all_of, bind};
ghost use Rattle.ir_semantics.specs.Effect.{arg_value};
ghost use Rattle.interp.specs.State.{some_if, env_of};

use crate::registers::Registers;
use clk_num::Bits;
use ir_core::{Arg, Value};
use std::alloc::AllocError;

/// The values of these numbers, where all have one.
pub fn read_all(
    values: &Registers,
    names: &[Value],
    out: &mut Vec<Bits>,
) -> Result<bool, AllocError>
    ensures { IfOk result (λ b. some_if b (data_of_all out.new.items) ≡ all_of (env_of values.now) names.now) }
{
    out.clear();
    'names: for name in names {
        match values.get(name.number() as usize) {
            None => return Ok(false),
            Some(x) => out.push(x)?,
        }
    }
    Ok(true)
}

/// Gives each number its value, where there are as many.
pub fn bind(values: &mut Registers, names: &[Value], xs: &[Bits]) -> Result<bool, AllocError>
    ensures { IfOk result
        (λ b. some_if b (env_of values.new) ≡ bind names.now (data_of_all xs.now) (env_of values.old)) }
{
    if names.len() != xs.len() {
        return Ok(false);
    }
    'names: for i in 0..names.len() {
        values.put(names[i].number() as usize, xs[i])?;
    }
    Ok(true)
}

/// The value of an argument of a target, where it has one.
fn read_arg(values: &Registers, results: &[Bits], payloads: &[Bits], arg: Arg) -> Option<Bits>
    ensures { option_map data_of result
        ≡ arg_value (env_of values.now) (data_of_all results.now) (data_of_all payloads.now) arg }
{
    match arg {
        Arg::Value(v) => values.get(v.number() as usize),
        Arg::Ret(i) => results.get(i as usize).copied(),
        Arg::Exn(i) => payloads.get(i as usize).copied(),
    }
}

/// The values of a target's arguments, where all have one.
pub fn read_args(
    values: &Registers,
    results: &[Bits],
    payloads: &[Bits],
    args: &[Arg],
    out: &mut Vec<Bits>,
) -> Result<bool, AllocError>
    ensures { IfOk result (λ b. some_if b (data_of_all out.new.items)
        ≡ all_of (arg_value (env_of values.now) (data_of_all results.now) (data_of_all payloads.now)) args.now) }
{
    out.clear();
    'args: for arg in args {
        match read_arg(values, results, payloads, *arg) {
            None => return Ok(false),
            Some(x) => out.push(x)?,
        }
    }
    Ok(true)
}
