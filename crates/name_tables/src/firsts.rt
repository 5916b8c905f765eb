//! The first definitions of values, in order.
ghost use Rattle.std.specs.Prelude.{◌≡◌, ◌++◌, ◌∷◌, [], length, OnOk};

use std::alloc::{AllocError, Global};
use std::marker::Model;
use token_reader::RawName;

/// For how many definitions a list has room with its first one: most functions of a few lines have no more.
const FIRST_ROOM: usize = 8;

/// A definition of a value, and the word that it stands for where it is an alias line.
#[derive(Clone, Copy)]
pub struct Def {
    pub name: RawName,
    pub target: Option<RawName>,
}

/// Definitions in order. Contracts see their list.
#[derive(Drop)]
pub struct Firsts {
    items: Vec<Def>,
}

impl Model for Firsts {
    ghost use Rattle.std.specs.Prelude.{List};
    ghost use Rattle.name_tables.specs.declared.firsts.Def.{Def};

    ghost Value = { List Def };

    ghost view = { λ firsts. firsts.items.items };
}

impl Firsts {
    /// No definitions.
    pub(crate) fn new(alloc: Global) -> Firsts
        ensures { result ≡ [] }
    {
        Firsts {
            items: Vec::new(alloc),
        }
    }

    #[inline]
    pub(crate) fn push(&mut self, def: Def) -> Result<(), AllocError>
        ensures { OnOk result (self.new ≡ self.old ++ def ∷ []) }
    {
        if self.items.is_empty() {
            self.items.reserve(FIRST_ROOM)?;
        }
        self.items.push(def)?;
        Ok(())
    }

    /// All of them.
    #[inline]
    pub fn as_slice(&self) -> &[Def]
        ensures { result.now ≡ self.now }
    {
        self.items.as_slice()
    }
}
