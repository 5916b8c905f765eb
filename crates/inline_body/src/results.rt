//! The new results of a body at a plain call.
ghost use Rattle.std.specs.Prelude.{◌≡◌, ℕ, ◌+◌, ◌*◌, ◌<◌, ◌≤◌, ◌^◌, ◌++◌, length, map, get_or, Some, IfOk, OnOk};
ghost use Rattle.ir_core.specs.Lists.{Below};
ghost use Rattle.ir_core.specs.Lookup.{block_numbers, type_of};
ghost use Rattle.ir_core.specs.Viewed.{instruction_of, line_of};
ghost use Rattle.inline_body.specs.Results.{is_tail_call as spec_is_tail_call, tail_calls, tail_calls_in, starts_along};
ghost use Rattle.inline_body.specs.Results.{repeated};

use body_import::value_types;
use ir_core::{Func, Inst, InstData, List, Ty, Value};
use std::alloc::{AllocError, Global};

/// Whether the instruction is a tail call.
fn is_tail_call(inst: &Inst) -> bool
    ensures { result ≡ spec_is_tail_call (instruction_of inst.now) }
{
    match inst {
        Inst::ReturnCall { .. } => true,
        Inst::ReturnCallIndirect { .. } => true,
        _ => false,
    }
}

/// How many of the instructions are tail calls.
fn count_tail_calls(lines: &[InstData]) -> usize
    ensures { result ≡ tail_calls (map line_of lines.now) }
{
    let mut count = 0;
    for line in lines {
        if is_tail_call(&line.inst) {
            count += 1;
        }
    }
    count
}

/// The new results of a body: the first of each of the callee's blocks, by the block's number, and how many tail calls
/// the callee has.
#[derive(Drop)]
pub struct NewResults {
    pub starts: Vec<u32>,
    pub tail_calls: usize,
}

/// The new results of a callee's body, from `first` on, where each tail call has `count`.
pub fn number_results(
    alloc: Global,
    callee: &Func,
    first: u32,
    count: u32,
) -> Result<NewResults, AllocError>
    requires few { tail_calls_in callee.now.function.blocks < 2 ^ 32 }
    requires fits { first + count * tail_calls_in callee.now.function.blocks < 2 ^ 32 }
    ensures as_many { IfOk result (λ r. length r.starts.items ≡ length callee.now.function.blocks) }
    ensures starts { IfOk result (λ r. map (λ b. get_or r.starts.items b 0) (block_numbers callee.now.function.blocks)
        ≡ starts_along first count callee.now.function.blocks) }
    ensures tail_calls { IfOk result (λ r. r.tail_calls ≡ tail_calls_in callee.now.function.blocks) }
{
    let mut table = vec![in alloc; 0; callee.block_count()]?;
    let mut number = first as usize;
    let mut tails = 0;
    'written: for block in callee.blocks() {
        table[block.number() as usize] = number as u32;
        let here = count_tail_calls(callee.inst_slice(block));
        number += count as usize * here;
        tails += here;
    }
    Ok(NewResults {
        starts: table,
        tail_calls: tails,
    })
}

/// The types of a caller's values.
pub fn result_types(alloc: Global, caller: &Func, values: &[Value]) -> Result<Vec<Ty>, AllocError>
    requires { Below (length caller.now.function.types) values.now }
    ensures { IfOk result (λ list. map Some list.items ≡ map (type_of caller.now.function) values.now) }
{
    let mut list = Vec::with_capacity(alloc, values.len())?;
    for value in values {
        list.push(caller.ty(*value))?;
    }
    Ok(list)
}

/// Appends types.
fn push_types(list: &mut Vec<Ty>, types: &[Ty]) -> Result<(), AllocError>
    ensures { OnOk result (list.new.items ≡ list.old.items ++ types.now) }
{
    for ty in types {
        list.push(*ty)?;
    }
    Ok(())
}

/// The types of a callee's values, and behind them so many times those of the site's results.
pub fn new_types(
    alloc: Global,
    callee: &Func,
    results: &[Ty],
    tail_calls: usize,
) -> Result<List<Ty>, AllocError>
    ensures { IfOk result (λ list. list ≡ map (λ t. t.1) callee.now.function.types ++ repeated tail_calls results.now) }
{
    let mut list = value_types(alloc, callee)?.into_vec();
    for _call in 0..tail_calls {
        push_types(&mut list, results)?;
    }
    Ok(List::from_vec(list))
}
