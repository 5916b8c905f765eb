//! The names of functions, by which their places are found.
ghost use Rattle.std.specs.Prelude.{◌≡◌, ◌++◌, [], ◌∷◌, None, is_none, IfOk, IfSome, IsTrue, OnOk, OnErr, MatchOption};
ghost use Rattle.ir_core.specs.Lists.{Each};
ghost use Rattle.ir_core.specs.Lookup.{find_function};
ghost use Rattle.ir_core.specs.Named.{IsIndex, functions_in, name_hash, place_of};
ghost use Rattle.ir_core.specs.Sound.{IsSound};
ghost use Rattle.ir_core.specs.WellFormed.{DifferentNames};

use crate::func::Func;
use crate::names::FuncName;
use containers::Boxed;
use std::alloc::{AllocError, Global};
use std::collections::{BTreeMap, HashMap};

/// The places of the functions of a list by their names.
#[derive(Drop)]
pub(crate) struct Names {
    /// The place of the first function whose name has a hash, by that hash.
    places: HashMap<u64, usize>,
    /// The place of each function whose name is a text, where an earlier name has the same hash.
    texts: BTreeMap<Vec<u8>, usize>,
    /// The place of each function whose name is two numbers, where an earlier name has the same hash.
    users: BTreeMap<(u32, u32), usize>,
}

impl Names {
    /// The names of no functions. It takes no memory.
    pub(crate) fn new(alloc: Global) -> Names
        ensures { IsIndex result [] }
    {
        Names {
            places: HashMap::new(alloc),
            texts: BTreeMap::new(alloc),
            users: BTreeMap::new(alloc),
        }
    }

    /// The names of no functions, with room for those of so many. Only `AllocError` refuses.
    fn with_capacity(alloc: Global, capacity: usize) -> Result<Names, AllocError>
        ensures { IfOk result (λ names. IsIndex names []) }
    {
        Ok(Names {
            places: HashMap::with_capacity(alloc, capacity)?,
            texts: BTreeMap::new(alloc),
            users: BTreeMap::new(alloc),
        })
    }

    /// The place of the function of this name among these functions, whose names these are. `hash` is the name's.
    pub(crate) fn find(&self, funcs: &[Boxed<Func>], name: &FuncName, hash: u64) -> Option<usize>
        requires index { IsIndex self.now (functions_in funcs.now) }
        requires hash { hash ≡ name_hash name.now }
        ensures { result ≡ place_of name.now (functions_in funcs.now) }
    {
        let place = self.places.get(&hash).copied()?;
        if funcs[place].get().name().is(name) {
            return Some(place);
        }
        match name {
            FuncName::Text(text) => self.texts.get(text.as_slice()).copied(),
            FuncName::User(first, second) => self.users.get(&(*first, *second)).copied(),
        }
    }

    /// Adds the name of a function that stands behind these functions, whose names these are and none of which has the
    /// name. `hash` is that of its name. Only `AllocError` refuses; then these stay their names.
    pub(crate) fn add(
        &mut self,
        alloc: Global,
        funcs: &[Boxed<Func>],
        func: &Func,
        hash: u64,
    ) -> Result<(), AllocError>
        requires hash { hash ≡ name_hash func.now.function.name }
        requires index { IsIndex self.old (functions_in funcs.now) }
        requires new { find_function func.now.function.name (functions_in funcs.now) ≡ None }
        ensures ok { OnOk result (IsIndex self.new (functions_in funcs.now ++ func.now.function ∷ [])) }
        ensures err { OnErr result (IsIndex self.new (functions_in funcs.now)) }
    {
        let place = funcs.len();
        if self.places.contains_key(&hash) {
            match func.name() {
                FuncName::Text(text) => {
                    let text = Vec::from_slice(alloc, text.as_slice())?;
                    self.texts.insert(text, place)?;
                }
                FuncName::User(first, second) => {
                    self.users.insert((*first, *second), place)?;
                }
            }
        } else {
            self.places.insert(hash, place)?;
        }
        Ok(())
    }

    /// Adds the name of a function that stands behind these functions, whose names these are, and answers true; false
    /// exactly where one of them has the name. A hash that none of them has takes one look. Only `AllocError` refuses.
    fn add_other(
        &mut self,
        alloc: Global,
        funcs: &[Boxed<Func>],
        func: &Func,
    ) -> Result<bool, AllocError>
        requires index { IsIndex self.old (functions_in funcs.now) }
        ensures cases { IfOk result
            (λ added. added ≡ is_none (place_of func.now.function.name (functions_in funcs.now))) }
        ensures added { IfOk result
            (λ added. IsTrue added → IsIndex self.new (functions_in funcs.now ++ func.now.function ∷ [])) }
        ensures sound { IsSound func.now.function }
    {
        let hash = func.name().hash();
        let Some(first) = self.places.insert(hash, funcs.len())? else {
            return Ok(true);
        };
        self.places.insert(hash, first)?;
        if self.find(funcs, func.name(), hash).is_some() {
            return Ok(false);
        }
        self.add(alloc, funcs, func, hash)?;
        Ok(true)
    }

    /// The names of these functions. `None` exactly where two of them have one name. Only `AllocError` refuses.
    pub(crate) fn of(alloc: Global, funcs: &[Boxed<Func>]) -> Result<Option<Names>, AllocError>
        ensures functions { IfOk result (λ made. MatchOption made
            (DifferentNames (functions_in funcs.now) → ⊥)
            (λ names. IsIndex names (functions_in funcs.now))) }
        ensures names { IfOk result (λ made. IfSome made (λ names. DifferentNames (functions_in funcs.now))) }
        ensures sound { IfOk result (λ made. IfSome made (λ names. Each IsSound (functions_in funcs.now))) }
    {
        let mut names = Names::with_capacity(alloc, funcs.len())?;
        'functions: for place in 0..funcs.len() {
            let before = &funcs[..place];
            let func = funcs[place].get();
            if !names.add_other(alloc, before, func)? {
                return Ok(None);
            }
        }
        Ok(Some(names))
    }
}
