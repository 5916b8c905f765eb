//! Modules.
ghost use Rattle.std.specs.Prelude.{◌≡◌, ℕ, ◌<◌, ◌++◌, List, [], ◌∷◌, Some, None, length, map, slice_get, MatchOption};
ghost use Rattle.std.specs.Prelude.{IfOk, IfSome, OnOk, OnErr, IsTrue, ◌↔◌};
ghost use Rattle.std.specs.List.{position_from};
ghost use Rattle.ir_core.specs.Lists.{Each};
ghost use Rattle.ir_core.specs.Lookup.{same_name, find_function};
ghost use Rattle.ir_core.specs.Sound.{IsWhole};
ghost use Rattle.ir_core.specs.WellFormed.{WellFormed, DifferentNames, IsModule};

use crate::func::Func;
use crate::index::Names;
use crate::names::FuncName;
use containers::Boxed;
use std::alloc::{AllocError, Global};
use std::marker::Model;

/// A module: whole functions of different names, in order. Contracts see it as a list of functions.
#[derive(Drop)]
pub struct Module {
    funcs: Vec<Boxed<Func>>,
    names: Names,
}

impl Model for Module {
    ghost use Rattle.std.specs.Prelude.{List};
    ghost use Rattle.ir_core.specs.Module.{Function};

    ghost Value = { List Function };

    ghost use Rattle.ir_core.specs.Named.{functions_of, IsNamed};

    ghost view = { functions_of };

    ghost invariant = { IsNamed };
}

impl Module {
    /// The module without functions. It takes no memory.
    pub fn new(alloc: Global) -> Module
        ensures { result ≡ [] }
    {
        Module {
            funcs: Vec::new(alloc),
            names: Names::new(alloc),
        }
    }

    /// The module of these whole functions, in this order; the list is kept as it is. `None` exactly where two of them
    /// have one name. Only `AllocError` refuses. Where no module is made the functions are dropped.
    pub fn of_functions(
        alloc: Global,
        funcs: Vec<Boxed<Func>>,
    ) -> Result<Option<Module>, AllocError>
        requires { Each (λ func. IsWhole func.function) funcs.items }
        ensures functions { IfOk result (λ made. MatchOption made
            (DifferentNames (map (λ func. func.function) funcs.items) → ⊥)
            (λ m. m ≡ map (λ func. func.function) funcs.items)) }
        ensures names { IfOk result (λ made. IfSome made DifferentNames) }
    {
        match Names::of(alloc, funcs.as_slice())? {
            Some(names) => Ok(Some(Module { funcs, names })),
            None => Ok(None),
        }
    }

    /// Appends a whole function, whose name no function of the module has. Only `AllocError` refuses; then the function
    /// is dropped.
    pub fn push(&mut self, func: Func) -> Result<(), AllocError>
        requires whole { IsWhole func.function }
        requires new { find_function func.function.name self.old ≡ None }
        ensures ok { OnOk result (self.new ≡ self.old ++ func.function ∷ []) }
        ensures err { OnErr result (self.new ≡ self.old) }
    {
        let alloc = *self.funcs.allocator();
        self.funcs.reserve(1)?;
        let func = Boxed::new(alloc, func)?;
        let hash = func.get().name().hash();
        self.names
            .add(alloc, self.funcs.as_slice(), func.get(), hash)?;
        self.funcs.push_reserved(func);
        Ok(())
    }

    /// The number of functions.
    pub fn len(&self) -> usize
        ensures count { result ≡ length self.now }
        ensures functions { IsModule self.now }
    {
        self.funcs.len()
    }

    /// Whether the module has no function.
    pub fn is_empty(&self) -> bool
        ensures { IsTrue result ↔ (self.now ≡ []) }
    {
        self.funcs.is_empty()
    }

    /// The function at a place.
    pub fn func(&self, i: usize) -> &Func
        requires { i < length self.now }
        ensures at { slice_get self.now i ≡ Some result.now.function }
        ensures whole { WellFormed result.now.function }
        ensures defined { IsWhole result.now.function }
    {
        self.funcs[i].get()
    }

    /// The place of the function of this name. `None` exactly where no function has the name.
    pub fn find(&self, name: &FuncName) -> Option<usize>
        ensures place { result ≡ position_from (λ f. same_name f.name name.now) 0 self.now }
        ensures cases { MatchOption result (find_function name.now self.now ≡ None)
            (λ i. (i < length self.now) × (find_function name.now self.now ≡ slice_get self.now i)) }
    {
        self.names.find(self.funcs.as_slice(), name, name.hash())
    }

    /// The functions, in order. It takes no memory.
    pub fn into_functions(self) -> Vec<Boxed<Func>>
        ensures { map (λ func. func.function) result.items ≡ self }
    {
        let Module { funcs, names: _ } = self;
        funcs
    }
}
