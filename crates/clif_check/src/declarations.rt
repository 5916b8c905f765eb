//! Callee declarations, which speak of other functions: so they are looked at once all functions are read.
ghost use Rattle.std.specs.Prelude.{◌≡◌, ◌<◌, Some, None, true, length, slice_get, MatchOption};
ghost use Rattle.ir_core.specs.Lookup.{find_function};
ghost use Rattle.ir_core.specs.Module as definitions;
ghost use Rattle.ir_core.specs.WellFormed.{DifferentNames};
ghost use Rattle.ir_semantics.specs.CallRules.{Declared};
ghost use Rattle.clif_check.specs.Declarations.{DeclareWithin, DeclaresAt, IsFunctionRange};

use crate::comparing::compares_in_linear_time;
use body_import::is_same_sig;
use ir_core::{Callee, Func, FuncName, Heads, Module};
use range_workers::{Ranges, end_behind, read_by_workers};
use std::alloc::Global;
use std::thread::Threads;

/// Functions of different names, of which each is found by its name.
pub trait Named {
    /// The functions, in order.
    ghost functions: { Self → definitions.Module };

    /// How many there are.
    fn count(&self) -> usize
        ensures count { result ≡ length (functions self.now) }
        ensures names { DifferentNames (functions self.now) };

    /// The function at a place.
    fn func_at(&self, place: usize) -> &Func
        requires { place < length (functions self.now) }
        ensures { slice_get (functions self.now) place ≡ Some result.now.function };

    /// The function of this name. `None` exactly where none has the name.
    fn find_func(&self, name: &FuncName) -> Option<&Func>
        ensures { MatchOption result (find_function name.now (functions self.now) ≡ None)
            (λ func. find_function name.now (functions self.now) ≡ Some func.now.function) };
}

impl Named for Heads {
    ghost functions = { λ heads. heads };

    fn count(&self) -> usize {
        self.funcs().len()
    }

    fn func_at(&self, place: usize) -> &Func {
        self.funcs()[place].get()
    }

    fn find_func(&self, name: &FuncName) -> Option<&Func> {
        self.find(name)
    }
}

impl Named for Module {
    ghost functions = { λ functions. functions };

    fn count(&self) -> usize {
        self.len()
    }

    fn func_at(&self, place: usize) -> &Func {
        self.func(place)
    }

    fn find_func(&self, name: &FuncName) -> Option<&Func> {
        let place = self.find(name)?;
        Some(self.func(place))
    }
}

/// Whether a callee declaration of a function states the signature of the function that it names, if there is one.
fn declares<N: Named>(all: &N, func: &Func, callee: &Callee) -> bool
    ensures { result ≡ true → Declared (N.functions all.now) func.now.function callee.now }
{
    let Some(named) = all.find_func(&callee.name) else {
        return true;
    };
    match func.sigs().get(callee.sig.number() as usize) {
        Some(sig) => is_same_sig(sig, named.sig()),
        None => false,
    }
}

/// Whether each callee declaration of the function at a place does. False also where it takes too long to compare their
/// signatures list by list.
fn declares_at<N: Named>(all: &N, place: usize) -> bool
    requires { place < length (N.functions all.now) }
    ensures { result ≡ true → DeclaresAt (N.functions all.now) place }
{
    let func = all.func_at(place);
    if !compares_in_linear_time(func) {
        return false;
    }
    for callee in func.callees() {
        if !declares(all, func, callee) {
            return false;
        }
    }
    true
}

/// Whether each callee declaration of the functions from a place on and before another does.
fn declare_within<N: Named>(all: &N, from: usize, end: usize) -> bool
    requires { IsFunctionRange (N.functions all.now) from end }
    ensures { result ≡ true → DeclareWithin (N.functions all.now) from end }
{
    for place in from..end {
        if !declares_at(all, place) {
            return false;
        }
    }
    true
}

/// Functions whose callee declarations are looked at range by range.
#[derive(Drop)]
struct NamedRanges<'n, N> {
    all: &'n N,
}

impl<'n, N: Named + Sync> Ranges<()> for NamedRanges<'n, N> {
    ghost range = { λ ranges from to. IsFunctionRange (N.functions ranges.all.now) from to };

    ghost stand = { λ ranges from to items. DeclareWithin (N.functions ranges.all.now) from to };

    fn find_stretch_end(&self, from: usize, end: usize, size: usize) -> usize {
        end_behind(from, end, size)
    }

    fn read_stretch(&self, alloc: Global, from: usize, end: usize) -> Option<Vec<()>> {
        if declare_within(self.all, from, end) {
            Some(Vec::new(alloc))
        } else {
            None
        }
    }

    ghost ordered = { λ ranges from to range. range.ordered };
}

/// How many functions a worker looks at in one go.
const FUNCTIONS: usize = 1_024;

/// Whether each callee declaration of these functions states the signature of the function that it names, if there is
/// one; by so many workers, in time linear in what the functions declare. Of the functions heads are enough. False also
/// where memory runs out, and where many callees of one function share a long signature: there `check` is faster, which
/// compares signatures by their numbers.
pub fn declare_all<R: Threads + Sync, N: Named + Sync>(
    rt: &R,
    alloc: Global,
    all: &N,
    workers: usize,
) -> bool
    ensures declared { result ≡ true → DeclareWithin (N.functions all.now) 0 (length (N.functions all.now)) }
    ensures names { DifferentNames (N.functions all.now) }
{
    let ranges = NamedRanges { all };
    read_by_workers(rt, alloc, &ranges, 0, all.count(), workers, FUNCTIONS).is_some()
}
