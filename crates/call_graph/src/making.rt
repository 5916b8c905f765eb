//! Which functions of a module each function calls.
ghost use Rattle.std.specs.Prelude.{◌≡◌, ℕ, ◌+◌, ◌<◌, List, [], Some, None, length, map, slice_get, IfOk, OnOk};
ghost use Rattle.ir_core.specs.Viewed.{line_of};
ghost use Rattle.call_graph.specs.Calls.{number_of, with_number, put_new, each_once, calls_in, graph_of};
ghost use Rattle.call_graph.specs.Marks.{Fresh, Marked, target_by, targets_in, TargetsBelow};

use crate::calls::Graph;
use ir_core::{Callee, Few, Func, InstData, List, Module};
use std::alloc::{AllocError, Global};

/// The calls of a module. Only `AllocError` refuses.
pub fn graph(alloc: Global, module: &Module) -> Result<Graph, AllocError>
    ensures { IfOk result (λ graph. graph ≡ graph_of «module».now) }
{
    let mut seen = vec![in alloc; 0usize; module.len()]?;
    let mut calls = Vec::with_capacity(alloc, module.len())?;
    for i in 0..module.len() {
        let called = find_calls(alloc, module, module.func(i), &mut seen, i + 1)?;
        calls.push(List::from_vec(called))?;
    }
    Ok(Graph { calls })
}

/// The functions that a function calls, each once, in order of first use. `seen` has a mark for each function of the
/// module, all below the stamp; those of the functions that are called become the stamp. Linear in the function, and in
/// its declared names. Only `AllocError` refuses.
pub fn find_calls(
    alloc: Global,
    module: &Module,
    func: &Func,
    seen: &mut Vec<usize>,
    stamp: usize,
) -> Result<Vec<usize>, AllocError>
    requires long { length seen.old.items ≡ length «module».now }
    requires fresh { Fresh stamp seen.old.items }
    ensures calls { IfOk result (λ calls. calls.items ≡ calls_in «module».now func.now.function) }
    ensures long { OnOk result (length seen.new.items ≡ length «module».now) }
    ensures stale { OnOk result (Fresh (stamp + 1) seen.new.items) }
{
    let numbers = callee_numbers(alloc, module, func.callees())?;
    let mut calls = Vec::with_capacity(alloc, func.callees().len())?;
    for block in func.blocks() {
        add_calls(
            numbers.as_slice(),
            func.inst_slice(block),
            seen,
            stamp,
            &mut calls,
        )?;
    }
    Ok(calls)
}

/// The number of the function that each declaration means, where it means one of the module.
fn callee_numbers(
    alloc: Global,
    module: &Module,
    callees: &[Callee],
) -> Result<Few<Option<usize>>, AllocError>
    ensures { IfOk result (λ numbers. numbers ≡ map (λ c. number_of «module».now c.name) callees.now) }
{
    if let [callee] = callees {
        return Ok(Few::one(module.find(&callee.name)));
    }
    let mut numbers = Vec::with_capacity(alloc, callees.len())?;
    for callee in callees {
        numbers.push(module.find(&callee.name))?;
    }
    Ok(Few::from_vec(numbers))
}

/// Adds the functions that these instructions call.
fn add_calls(
    numbers: &[Option<usize>],
    lines: &[InstData],
    seen: &mut Vec<usize>,
    stamp: usize,
    calls: &mut Vec<usize>,
) -> Result<(), AllocError>
    requires below { TargetsBelow (length seen.old.items) numbers.now }
    requires marked { Marked stamp seen.old.items calls.old.items }
    ensures calls { OnOk result
        (calls.new.items ≡ each_once calls.old.items (targets_in numbers.now (map line_of lines.now))) }
    ensures marked { OnOk result (Marked stamp seen.new.items calls.new.items) }
    ensures long { OnOk result (length seen.new.items ≡ length seen.old.items) }
{
    let mut rest = lines;
    'lines: while let Some((line, after)) = rest.split_first() {
        add_line(numbers, line, seen, stamp, calls)?;
        rest = after;
    }
    Ok(())
}

/// Adds the function that an instruction calls.
fn add_line(
    numbers: &[Option<usize>],
    line: &InstData,
    seen: &mut Vec<usize>,
    stamp: usize,
    calls: &mut Vec<usize>,
) -> Result<(), AllocError>
    requires below { TargetsBelow (length seen.old.items) numbers.now }
    requires marked { Marked stamp seen.old.items calls.old.items }
    ensures calls { let target = target_by numbers.now (line_of line.now) in
        OnOk result (calls.new.items ≡ each_once calls.old.items (with_number target [])) }
    ensures marked { OnOk result (Marked stamp seen.new.items calls.new.items) }
    ensures long { OnOk result (length seen.new.items ≡ length seen.old.items) }
{
    match callee_number(numbers, line) {
        Some(target) => add_call(seen, stamp, calls, target),
        None => Ok(()),
    }
}

/// The function that an instruction calls, by the functions that the declarations of its function mean.
pub fn callee_number(numbers: &[Option<usize>], line: &InstData) -> Option<usize>
    ensures { result ≡ target_by numbers.now (line_of line.now) }
{
    match line.inst.callee() {
        Some(callee) => match numbers.get(callee.number() as usize) {
            Some(number) => *number,
            None => None,
        },
        None => None,
    }
}

/// Adds a function that isn't among the calls yet.
fn add_call(
    seen: &mut Vec<usize>,
    stamp: usize,
    calls: &mut Vec<usize>,
    target: usize,
) -> Result<(), AllocError>
    requires there { target < length seen.old.items }
    requires marked { Marked stamp seen.old.items calls.old.items }
    ensures calls { OnOk result (calls.new.items ≡ put_new calls.old.items target) }
    ensures marked { OnOk result (Marked stamp seen.new.items calls.new.items) }
    ensures long { OnOk result (length seen.new.items ≡ length seen.old.items) }
{
    if seen[target] != stamp {
        calls.push(target)?;
        seen[target] = stamp;
    }
    Ok(())
}
