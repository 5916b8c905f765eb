//! Name resolution.
ghost use Rattle.std.specs.Prelude.{◌≡◌, ◌<◌, length, IfErr, IfOk};
ghost use Rattle.clif_names.specs.Faults.{IsNamesFault, NoFault, of_functions};
ghost use Rattle.clif_meaning.specs.Meaning.{HasBlocks, Means};
ghost use Rattle.clif_meaning.specs.Reads.{alone};
ghost use Rattle.clif_meaning.specs.Spots.{spots};

use crate::building::build;
use crate::places::Places;
use clif_lex::TextErr;
use clif_names::first_fault;
use clif_read::{RawFunction, RawModule};
use ir_core::Module;
use std::alloc::Global;

/// The module that a raw module means, and where its items stand in the text. Takes time linear in the text, but for
/// the logarithm that words with numbers far apart take.
///
/// # Errors
///
/// Those of `meaning`.
pub fn resolve(alloc: Global, raw: &RawModule) -> Result<(Module, Places), TextErr>
    requires blocks { HasBlocks raw.now }
    ensures meant { IfOk result (λ r. NoFault raw.now × Means raw.now r.0) }
    ensures places { IfOk result (λ r. r.1 ≡ spots raw.now) }
    ensures fault { IfErr result (λ e. IsNamesFault raw.now e) }
{
    resolve_functions(alloc, raw.functions.as_slice())
}

/// What `resolve` gives for the raw module that has the function of this number alone: the module of that function, and
/// where its items stand in the text. Takes time linear in the function's text, but for the logarithm that words with
/// numbers far apart take.
///
/// # Errors
///
/// Those of `meaning`, for that raw module: no other function is looked at.
pub fn resolve_func(
    alloc: Global,
    raw: &RawModule,
    func: usize,
) -> Result<(Module, Places), TextErr>
    requires blocks { HasBlocks raw.now }
    requires there { func < length raw.now.functions }
    ensures meant { IfOk result (λ r. NoFault (alone raw.now func) × Means (alone raw.now func) r.0) }
    ensures places { IfOk result (λ r. r.1 ≡ spots (alone raw.now func)) }
    ensures fault { IfErr result (λ e. IsNamesFault (alone raw.now func) e) }
{
    resolve_functions(alloc, &raw.functions.as_slice()[func..func + 1])
}

/// The module that a raw module means. Takes time linear in the text, but for the logarithm that words with numbers far
/// apart take.
///
/// # Errors
///
/// The first fault of names and numbers: the one with the smallest spot, and at one spot the one whose kind is listed
/// first. `NoMemory`.
pub fn meaning(alloc: Global, raw: &RawModule) -> Result<Module, TextErr>
    requires { HasBlocks raw.now }
    ensures meant { IfOk result (λ m. NoFault raw.now × Means raw.now m) }
    ensures fault { IfErr result (λ e. IsNamesFault raw.now e) }
{
    meaning_of_functions(alloc, raw.functions.as_slice())
}

/// What `resolve` gives for the raw module of these functions.
fn resolve_functions(alloc: Global, functions: &[RawFunction]) -> Result<(Module, Places), TextErr>
    requires { HasBlocks (of_functions functions.now) }
    ensures meant { IfOk result
        (λ r. NoFault (of_functions functions.now) × Means (of_functions functions.now) r.0) }
    ensures places { IfOk result (λ r. r.1 ≡ spots (of_functions functions.now)) }
    ensures fault { IfErr result (λ e. IsNamesFault (of_functions functions.now) e) }
{
    let module = meaning_of_functions(alloc, functions)?;
    match Places::of_functions(alloc, functions) {
        Ok(places) => Ok((module, places)),
        Err(_) => Err(TextErr::NoMemory),
    }
}

/// What `meaning` gives for the raw module of these functions.
fn meaning_of_functions(alloc: Global, functions: &[RawFunction]) -> Result<Module, TextErr>
    requires { HasBlocks (of_functions functions.now) }
    ensures meant { IfOk result (λ m. NoFault (of_functions functions.now) × Means (of_functions functions.now) m) }
    ensures fault { IfErr result (λ e. IsNamesFault (of_functions functions.now) e) }
{
    match build(alloc, functions) {
        Ok(Some(module)) => Ok(module),
        Ok(None) => Err(names_fault(alloc, functions)),
        Err(_) => Err(TextErr::NoMemory),
    }
}

/// The first fault of names and numbers of the raw module of these functions, which has one.
fn names_fault(alloc: Global, functions: &[RawFunction]) -> TextErr
    requires { ¬ NoFault (of_functions functions.now) }
    ensures { IsNamesFault (of_functions functions.now) result }
{
    match first_fault(alloc, functions) {
        Ok(Some(fault)) => TextErr::Fault {
            kind: fault.kind,
            spot: fault.spot,
        },
        // There is one, so that only memory can be wanting.
        Ok(None) | Err(_) => TextErr::NoMemory,
    }
}
