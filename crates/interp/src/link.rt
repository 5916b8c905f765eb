//! What is found in a module before a run.
ghost use Rattle.std.specs.Prelude.{◌≡◌, ◌<◌, length, map, IfOk};
ghost use Rattle.ir_core.specs.Named.{place_of};
ghost use Rattle.ir_semantics.specs.Accepted.{Accepted};
ghost use Rattle.interp.specs.State.{function_at, Linked};
ghost use Rattle.interp.specs.Linking.{LinksOf};

use crate::state::{Links, Program};
use ir_core::{Callee, Func, Module};
use std::alloc::{AllocError, Global};

/// For each callee declaration the place of the function that has its name.
fn find_callees(
    alloc: Global,
    module: &Module,
    callees: &[Callee],
) -> Result<Vec<Option<usize>>, AllocError>
    ensures { IfOk result (λ found. found.items ≡ map (λ c. place_of c.name «module».now) callees.now) }
{
    let mut found = Vec::new(alloc);
    'callees: for callee in callees {
        found.push(module.find(&callee.name))?;
    }
    Ok(found)
}

/// What is found of the function at a place.
fn find_links(alloc: Global, module: &Module, at: usize) -> Result<Links, AllocError>
    requires { at < length «module».now }
    ensures { IfOk result (λ links. LinksOf «module».now (function_at «module».now at) links) }
{
    let func = module.func(at);
    let blocks = func.block_count();
    let _values = func.values();
    let callees = find_callees(alloc, module, func.callees())?;
    Ok(Links { blocks, callees })
}

/// An accepted module as a program. It costs a search for each callee declaration.
pub fn link<'m>(alloc: Global, module: &'m Module) -> Result<Program<'m>, AllocError>
    requires { Accepted «module».now }
    ensures linked { IfOk result (λ program. Linked program) }
    ensures same { IfOk result (λ program. program.module.now ≡ «module».now) }
{
    let mut links = Vec::new(alloc);
    let len = module.len();
    'funcs: for i in 0..len {
        links.push(find_links(alloc, module, i)?)?;
    }
    Ok(Program { module, links })
}
