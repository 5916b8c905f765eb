//! The functions of a module whose calls are found range by range.
ghost use Rattle.std.specs.Prelude.{IfOk};
ghost use Rattle.graph_workers.specs.Ranges.{AreCalls, IsRange};

use call_graph::find_calls;
use ir_core::{List, Module};
use range_workers::{Ranges, end_behind};
use std::alloc::{AllocError, Global};

/// A module, the calls of whose functions are found range by range.
#[derive(Drop)]
pub(crate) struct CallRanges<'m> {
    pub(crate) module: &'m Module,
}

impl<'m> Ranges<List<usize>> for CallRanges<'m> {
    ghost range = { λ ranges from to. IsRange ranges.«module».now from to };

    ghost stand = { λ ranges from to calls. AreCalls ranges.«module».now from to calls };

    fn find_stretch_end(&self, from: usize, end: usize, size: usize) -> usize {
        end_behind(from, end, size)
    }

    fn read_stretch(&self, alloc: Global, from: usize, end: usize) -> Option<Vec<List<usize>>> {
        match find_range_calls(alloc, self.module, from, end) {
            Ok(calls) => Some(calls),
            Err(_) => None,
        }
    }

    ghost ordered = { λ ranges from to range. range.ordered };
}

/// The calls of each function from a place on and before another, by marks for all functions of the module. Only
/// `AllocError` refuses.
fn find_range_calls(
    alloc: Global,
    module: &Module,
    from: usize,
    end: usize,
) -> Result<Vec<List<usize>>, AllocError>
    requires { IsRange «module».now from end }
    ensures { IfOk result (λ calls. AreCalls «module».now from end calls.items) }
{
    let mut seen = vec![in alloc; 0usize; module.len()]?;
    let mut calls = Vec::with_capacity(alloc, end - from)?;
    for i in from..end {
        let called = find_calls(alloc, module, module.func(i), &mut seen, i + 1)?;
        calls.push(List::from_vec(called))?;
    }
    Ok(calls)
}
