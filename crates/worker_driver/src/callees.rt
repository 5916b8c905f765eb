//! The finished bodies that were read for a function.
ghost use Rattle.std.specs.Prelude.{◌≡◌, [], ◌∷◌, ◌++◌, OnOk};
ghost use Rattle.std.specs.Arc.{arc_value};
ghost use Rattle.inline_finish.specs.Building.{policy_of};
ghost use Rattle.worker_driver.specs.Held.{IsHeld};

use inline_finish::{Bodies, Built, Policy};
use ir_core::{Func, Module};
use splice_size::Counts;
use std::alloc::{AllocError, Global};
use std::collections::BTreeMap;
use std::marker::Model;
use std::snapshot::Snapshot;
use std::sync::Arc;

/// Finished bodies of functions of a module, by the functions' numbers. Contracts see for which functions there is one.
#[derive(Drop)]
pub(crate) struct Callees {
    functions: Snapshot<Module>,
    policy: Policy,
    built: BTreeMap<usize, Arc<Built>>,
    /// The functions that there are bodies of.
    known: Vec<usize>,
}

impl Model for Callees {
    ghost use Rattle.worker_driver.specs.Held.{Held, AreBodies, Has};

    ghost Value = { Held };

    ghost view = { λ c. record { functions = c.functions.value; policy = c.policy; known = c.known.items } };

    ghost invariant = { λ c. AreBodies c.policy c.functions.value c.built × Has c.built c.known.items };
}

impl Bodies for Callees {
    ghost functions = { λ c. c.functions };

    ghost policy = { λ c. policy_of c.policy };

    ghost has = { λ c. c.known };

    fn body(&self, func: usize) -> &Func {
        match self.built.get(&func) {
            Some(built) => &built.func,
            None => unreachable!(),
        }
    }

    fn counts(&self, func: usize) -> Option<Counts> {
        match self.built.get(&func) {
            Some(built) => built.counts,
            None => unreachable!(),
        }
    }

    fn likely_callee(&self) -> Option<usize> {
        self.known.first().copied()
    }
}

impl Callees {
    /// No body.
    pub(crate) fn new(alloc: Global, module: &Module, policy: Policy) -> Callees
        ensures kind { (result.functions ≡ «module».now) × (result.policy ≡ policy) }
        ensures none { result.known ≡ [] }
    {
        Callees {
            functions: Snapshot::of(module),
            policy,
            built: BTreeMap::new(alloc),
            known: Vec::new(alloc),
        }
    }

    /// Puts in the body of a function.
    pub(crate) fn put(&mut self, func: usize, built: Arc<Built>) -> Result<(), AllocError>
        requires { IsHeld self.old.policy self.old.functions func (arc_value built) }
        ensures kind { OnOk result
            ((self.new.functions ≡ self.old.functions) × (self.new.policy ≡ self.old.policy)) }
        ensures more { OnOk result (self.new.known ≡ self.old.known ++ func ∷ []) }
    {
        self.known.reserve(1)?;
        self.built.insert(func, built)?;
        self.known.push_reserved(func);
        Ok(())
    }
}
