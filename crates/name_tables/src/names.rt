//! The words of one kind, and the first faults among them.
ghost use Rattle.std.specs.Prelude.{◌≡◌, OnOk, IfOk, fold, nat_eq, position};
ghost use Rattle.name_tables.specs.Taking as spec;

use crate::spots::earlier_spot;
use crate::words::Words;
use std::alloc::{AllocError, Global};
use token_reader::RawName;

/// The greatest number that a word may have.
const GREATEST_NUMBER: u64 = 4_294_967_294;

/// The words of one kind in the order of their first definitions, and the first spots at which one of them is wrong.
#[derive(Drop)]
pub struct Names {
    pub words: Words,
    /// Of a definition whose word stood before.
    pub repeated: Option<usize>,
    /// Of a use of a word without a definition.
    pub missing: Option<usize>,
    /// Of a number above the limit.
    pub outside: Option<usize>,
}

impl Names {
    pub(crate) fn new(alloc: Global) -> Names
        ensures { result ≡ spec.no_names }
    {
        Names {
            words: Words::new(alloc),
            repeated: None,
            missing: None,
            outside: None,
        }
    }

    #[inline]
    fn see(&mut self, name: RawName)
        ensures { self.new ≡ spec.see self.old name }
    {
        if name.number > GREATEST_NUMBER {
            self.outside = earlier_spot(self.outside, name.spot);
        }
    }

    /// Takes a definition, and says whether it is the first of its word.
    #[inline]
    #[tactic(auto, unfolding(crate::specs::Taking::declare))]
    pub(crate) fn declare(&mut self, name: RawName) -> Result<bool, AllocError>
        ensures taken { OnOk result (self.new ≡ spec.declare self.old name) }
        ensures first { IfOk result (λ is_first. is_first ≡ spec.is_new self.old name.number) }
    {
        self.see(name);
        let is_first = self.words.place(name.number).is_none();
        if is_first {
            self.words.push(name.number)?;
        } else {
            self.repeated = earlier_spot(self.repeated, name.spot);
        }
        Ok(is_first)
    }

    /// Takes a use.
    #[inline]
    #[tactic(auto, unfolding(crate::specs::Taking::refer))]
    pub fn refer(&mut self, name: RawName)
        ensures { self.new ≡ spec.refer self.old name }
    {
        self.see(name);
        if self.words.place(name.number).is_none() {
            self.missing = earlier_spot(self.missing, name.spot);
        }
    }

    /// The place of a word in order of definition, or the number of words where it has no definition.
    #[inline]
    pub fn place_or_count(&self, word: u64) -> usize
        ensures { result ≡ spec.place_or_count self.now.words word }
    {
        match self.words.place(word) {
            Some(place) => place,
            None => self.words.len(),
        }
    }

    /// Takes uses in order.
    #[tactic(auto, using(crate::proofs::Folds::fold_one))]
    pub(crate) fn refer_all(&mut self, names: &[RawName])
        ensures { self.new ≡ fold spec.refer self.old names.now }
    {
        for name in names {
            self.refer(*name);
        }
    }
}
