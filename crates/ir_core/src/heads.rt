//! Functions of different names, of which each is found by its name.
ghost use Rattle.std.specs.Prelude.{◌≡◌, Some, None, map, MatchOption, IfOk};
ghost use Rattle.ir_core.specs.Lookup.{find_function};
ghost use Rattle.ir_core.specs.WellFormed.{DifferentNames};

use crate::func::Func;
use crate::index::Names;
use crate::names::FuncName;
use containers::Boxed;
use std::alloc::{AllocError, Global};
use std::marker::Model;

/// Functions of different names, of which each is found by its name. Unlike those of a module they need not be whole:
/// where bodies were let go, heads are left. Contracts see it as a list of functions.
#[derive(Drop)]
pub struct Heads {
    funcs: Vec<Boxed<Func>>,
    names: Names,
}

impl Model for Heads {
    ghost use Rattle.std.specs.Prelude.{List};
    ghost use Rattle.ir_core.specs.Module.{Function};

    ghost Value = { List Function };

    ghost use Rattle.ir_core.specs.Headed.{heads_of, AreNamed};

    ghost view = { heads_of };

    ghost invariant = { AreNamed };
}

impl Heads {
    /// The functions of this list, in this order; the list is kept as it is. `None` exactly where two of them have one
    /// name. Only `AllocError` refuses. Where nothing is made the functions are dropped.
    pub fn of_functions(alloc: Global, funcs: Vec<Boxed<Func>>) -> Result<Option<Heads>, AllocError>
        ensures { IfOk result (λ made. MatchOption made
            (DifferentNames (map (λ func. func.function) funcs.items) → ⊥)
            (λ heads. heads ≡ map (λ func. func.function) funcs.items)) }
    {
        match Names::of(alloc, funcs.as_slice())? {
            Some(names) => Ok(Some(Heads { funcs, names })),
            None => Ok(None),
        }
    }

    /// The functions, in order.
    pub fn funcs(&self) -> &[Boxed<Func>]
        ensures functions { map (λ func. func.function) result.now ≡ self.now }
        ensures names { DifferentNames self.now }
    {
        self.funcs.as_slice()
    }

    /// The function of this name. `None` exactly where none has the name.
    pub fn find(&self, name: &FuncName) -> Option<&Func>
        ensures { MatchOption result (find_function name.now self.now ≡ None)
            (λ func. find_function name.now self.now ≡ Some func.now.function) }
    {
        let place = self.names.find(self.funcs.as_slice(), name, name.hash())?;
        Some(self.funcs[place].get())
    }
}
