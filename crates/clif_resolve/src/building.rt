//! Building the module that a raw module means.
ghost use Rattle.std.specs.Prelude.{◌≢◌, [], IfOk, IfSome, MatchOption};
ghost use Rattle.clif_names.specs.Faults.{NoFault, of_functions};
ghost use Rattle.clif_meaning.specs.Meaning.{HasBlocks, Means};

use crate::functions::meant_function;
use clif_names::among_functions;
use clif_read::RawFunction;
use ir_core::Module;
use std::alloc::{AllocError, Global};

/// The module that the raw module of these functions means, `None` exactly where it has a fault of names or numbers.
/// Each function has a block, as the grammar has it. Takes time linear in the text, but for the logarithm that words
/// with numbers far apart take. Only `AllocError` refuses.
pub fn build(alloc: Global, functions: &[RawFunction]) -> Result<Option<Module>, AllocError>
    requires { HasBlocks (of_functions functions.now) }
    ensures free { IfOk result (λ built. MatchOption built (¬ NoFault (of_functions functions.now))
        (λ _. NoFault (of_functions functions.now))) }
    ensures meant { IfOk result (λ built. IfSome built (λ m. Means (of_functions functions.now) m)) }
{
    if !among_functions(alloc, functions)?.is_none() {
        return Ok(None);
    }
    let mut module = Module::new(alloc);
    for func in functions {
        match meant_function(alloc, func)? {
            Some(built) => module.push(built)?,
            None => return Ok(None),
        }
    }
    Ok(Some(module))
}
