//! How long it takes to compare the signatures of a function's callee declarations list by list.
use ir_core::{Func, Sig};

/// How often each parameter, result and callee that a function declares may be paid for.
const COMPARED: usize = 32;

/// The number of parameters and results of a signature.
fn count_types(sig: &Sig) -> usize {
    let params = sig.params.as_slice().len();
    params.saturating_add(sig.results.as_slice().len())
}

/// The number of parameters and results that the callee declarations of a function state, those of a signature as often
/// as a declaration names it. Takes time linear in the callees.
fn count_stated(func: &Func) -> usize {
    let sigs = func.sigs();
    let mut count: usize = 0;
    for callee in func.callees() {
        if let Some(sig) = sigs.get(callee.sig.number() as usize) {
            count = count.saturating_add(count_types(sig));
        }
    }
    count
}

/// The number of parameters, results and callees that the text of a function declares. Takes time linear in the
/// signatures and callees.
fn count_declared(func: &Func) -> usize {
    let mut count = func.callees().len();
    for sig in func.sigs() {
        count = count.saturating_add(count_types(sig));
    }
    count
}

/// Whether the signatures of a function's callee declarations are compared list by list in time linear in its text.
/// They are not where many callees share a long signature: so long ones are compared by their numbers.
pub(crate) fn compares_in_linear_time(func: &Func) -> bool {
    count_stated(func) / COMPARED <= count_declared(func)
}
