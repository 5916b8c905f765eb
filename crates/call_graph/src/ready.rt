//! The pieces that are ready to be placed, in order of their least functions.
ghost use Rattle.std.specs.Prelude.{◌≡◌, ℕ, ◌<◌, ◌⊎◌, List, [], ◌∷◌, IfSome, IfNone, OnOk};
ghost use Rattle.ir_core.specs.Lists.{In};

use std::alloc::{AllocError, Global};
use std::collections::BTreeSet;
use std::marker::Model;

#[derive(Drop)]
pub(crate) struct Ready {
    set: BTreeSet<usize>,
}

impl Model for Ready {
    ghost use Rattle.std.specs.Prelude.{ℕ, List};

    ghost Value = { List ℕ };

    ghost view = { λ s. s.set.keys };
}

impl Ready {
    pub(crate) fn new(alloc: Global) -> Ready
        ensures { result ≡ [] }
    {
        Ready {
            set: BTreeSet::new(alloc),
        }
    }

    pub(crate) fn insert(&mut self, piece: usize) -> Result<(), AllocError>
        ensures there { OnOk result (In piece self.new) }
        ensures kept { OnOk result ((k : ℕ) → In k self.old → In k self.new) }
        ensures from { OnOk result ((k : ℕ) → In k self.new → (k ≡ piece) ⊎ In k self.old) }
    {
        self.set.insert(piece)?;
        Ok(())
    }

    /// The piece with the least function.
    pub(crate) fn pop_least(&mut self) -> Option<usize>
        ensures none { IfNone result (self.old ≡ []) }
        ensures least { IfSome result (λ piece. (self.old ≡ piece ∷ self.new) × ((k : ℕ) → In k self.new → piece < k)) }
    {
        self.set.pop_first()
    }
}
