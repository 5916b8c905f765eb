//! Which functions a function's callee declarations name.
ghost use Rattle.std.specs.Prelude.{◌≡◌, ◌<◌, Some, None, map, length, slice_get, IfOk, MatchOption};
ghost use Rattle.ir_core.specs.Lookup.{find_function};
ghost use Rattle.call_graph.specs.Calls.{number_of};
ghost use Rattle.call_graph.specs.Order.{piece_number};
ghost use Rattle.inline_finish.specs.Targets.{target_of, targets_in};

use ir_core::{Callee, Func, FuncName, Module};
use std::alloc::{AllocError, Global};

/// For each callee declaration of a function the number of the function that it names, where that is one in another
/// piece. `func` is the function's number, and `piece` has the piece number of each function. A declaration that names
/// the `likely` function costs no search.
pub(crate) fn targets(
    alloc: Global,
    module: &Module,
    likely: Option<usize>,
    piece: &[usize],
    func: usize,
    own: &Func,
) -> Result<Vec<Option<usize>>, AllocError>
    requires there { slice_get «module».now func ≡ Some own.now.function }
    requires pieces { piece.now ≡ map (λ f. piece_number «module».now f.name) «module».now }
    ensures { IfOk result (λ targets. targets.items ≡ targets_in «module».now own.now.function) }
{
    let mut targets = Vec::new(alloc);
    for callee in own.callees() {
        targets.push(target(module, likely, piece, func, own, callee))?;
    }
    Ok(targets)
}

/// The function that a declaration names, where that is one of another piece.
fn target(
    module: &Module,
    likely: Option<usize>,
    piece: &[usize],
    func: usize,
    own: &Func,
    callee: &Callee,
) -> Option<usize>
    requires there { slice_get «module».now func ≡ Some own.now.function }
    requires pieces { piece.now ≡ map (λ f. piece_number «module».now f.name) «module».now }
    ensures { result ≡ target_of «module».now own.now.function.name callee.now.name }
{
    let _name = own.name();
    match find_callee(module, likely, &callee.name) {
        Some(found) => {
            if piece[found] == piece[func] {
                None
            } else {
                Some(found)
            }
        }
        None => None,
    }
}

/// The number of the function of this name, as `Module::find` gives it. The `likely` function is tried first.
fn find_callee(module: &Module, likely: Option<usize>, name: &FuncName) -> Option<usize>
    ensures place { result ≡ number_of «module».now name.now }
    ensures cases { MatchOption result (find_function name.now «module».now ≡ None)
        (λ i. (i < length «module».now) × (find_function name.now «module».now ≡ slice_get «module».now i)) }
{
    if let Some(likely) = likely {
        if likely < module.len() && module.func(likely).name().is(name) {
            return Some(likely);
        }
    }
    module.find(name)
}
