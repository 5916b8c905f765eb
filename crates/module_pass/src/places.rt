//! The finished bodies that are there so far, in the module's order.
ghost use Rattle.std.specs.Prelude.{◌≡◌, ◌<◌, ℕ, length, replicate, set, Some, None, IfOk, IfSome, slice_get};
ghost use Rattle.inline_finish.specs.Building.{policy_of, IsBuilt};
ghost use Rattle.module_pass.specs.Places.{AreBuilt, filled};

use inline_finish::{Bodies, Built, Policy};
use ir_core::{Func, Module};
use splice_size::Counts;
use std::alloc::{AllocError, Global};
use std::marker::Model;
use std::snapshot::Snapshot;

/// A place for the finished body of each function of a module.
#[derive(Drop)]
pub(crate) struct Places {
    functions: Snapshot<Module>,
    policy: Policy,
    built: Vec<Option<Built>>,
}

impl Model for Places {
    ghost use Rattle.module_pass.specs.Places.{Table, AreBuilt};

    ghost Value = { Table };

    ghost view = { λ p. record { functions = p.functions.value; policy = p.policy; built = p.built.items } };

    ghost invariant = { λ p. AreBuilt p.policy p.functions.value p.built.items };
}

impl Bodies for Places {
    ghost functions = { λ p. p.functions };

    ghost policy = { λ p. policy_of p.policy };

    ghost has = { λ p. filled p.built };

    fn body(&self, func: usize) -> &Func {
        match &self.built[func] {
            Some(built) => &built.func,
            None => unreachable!(),
        }
    }

    fn counts(&self, func: usize) -> Option<Counts> {
        match &self.built[func] {
            Some(built) => built.counts,
            None => unreachable!(),
        }
    }

    fn likely_callee(&self) -> Option<usize> {
        None
    }
}

/// So many places with nothing in them.
fn empty(alloc: Global, count: usize) -> Result<Vec<Option<Built>>, AllocError>
    ensures { IfOk result (λ places. places.items ≡ replicate count None) }
{
    let mut places = Vec::with_capacity(alloc, count)?;
    for i in 0..count {
        places.push(None)?;
    }
    Ok(places)
}

impl Places {
    /// No body.
    pub(crate) fn new(alloc: Global, module: &Module, policy: Policy) -> Result<Places, AllocError>
        ensures kind { IfOk result (λ places. (places.functions ≡ «module».now) × (places.policy ≡ policy)) }
        ensures none { IfOk result (λ places. places.built ≡ replicate (length «module».now) None) }
    {
        let built = empty(alloc, module.len())?;
        Ok(Places {
            functions: Snapshot::of(module),
            policy,
            built,
        })
    }

    /// Puts in the body of a function.
    pub(crate) fn put(&mut self, func: usize, built: Built)
        requires there { func < length self.old.functions }
        requires body { IfSome (slice_get self.old.functions func)
            (λ f. IsBuilt (policy_of self.old.policy) self.old.functions f built) }
        ensures kind { (self.new.functions ≡ self.old.functions) × (self.new.policy ≡ self.old.policy) }
        ensures more { self.new.built ≡ set self.old.built func (Some built) }
    {
        self.built[func] = Some(built);
    }

    /// What is in the places.
    pub(crate) fn into_built(self) -> Vec<Option<Built>>
        ensures same { result.items ≡ self.built }
        ensures built { AreBuilt self.policy self.functions result.items }
    {
        self.built
    }
}
