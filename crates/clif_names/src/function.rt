//! The names of one function, and its first faults.
ghost use Rattle.std.specs.Prelude.{◌≡◌, IfOk};
ghost use Rattle.clif_names.specs.Faults.{FunctionFault};
ghost use Rattle.clif_names.specs.FunctionNames.{AreNamesOf, end_of, value_number};
ghost use Rattle.clif_names.specs.LeastSpots.{AreLeast};
ghost use Rattle.name_tables.specs.Taking.{place_or_count};
ghost use Rattle.clif_names.specs.Using.{uses_of};

use crate::least::LeastSpots;
use crate::uses::Uses;
use clif_read::RawFunction;
use name_tables::aliases::{Counts, endless, ends, values_before};
use name_tables::{End, Ends, Tables};
use std::alloc::{AllocError, Global};

/// The names of a function: its words by kind, and what its alias lines stand for.
#[derive(Drop)]
pub struct FunctionNames {
    pub uses: Uses,
    /// How the chain of each value's word ends.
    pub ends: Ends,
    /// The least spot of an alias line whose chain never ends.
    pub endless: Option<usize>,
    /// How many values are defined before each word's first definition, and at last by all of them.
    pub values_before: Counts,
}

impl FunctionNames {
    /// The names of a function. Takes time linear in the function's text, but for the logarithm that words with numbers
    /// far apart take.
    pub fn of(alloc: Global, func: &RawFunction) -> Result<FunctionNames, AllocError>
        ensures { IfOk result (λ names. AreNamesOf func.now names) }
    {
        let mut tables = Tables::new(alloc);
        tables.define(func)?;
        let ends = ends(alloc, &tables.values.words, tables.firsts.as_slice())?;
        let endless = endless(tables.firsts.as_slice(), &ends);
        let values_before = values_before(alloc, tables.firsts.as_slice())?;
        let mut uses = begun(tables);
        uses.use_function(&ends, func);
        Ok(FunctionNames {
            uses,
            ends,
            endless,
            values_before,
        })
    }

    /// The place of a slot's word, or the number of slots where it has no definition.
    #[inline]
    pub fn slot(&self, word: u64) -> usize
        ensures { result ≡ place_or_count self.now.uses.slots.words word }
    {
        self.uses.slots.place_or_count(word)
    }

    /// The place of a signature's word among the declared ones, or their number where it has no definition.
    #[inline]
    pub fn sig(&self, word: u64) -> usize
        ensures { result ≡ place_or_count self.now.uses.sigs.words word }
    {
        self.uses.sigs.place_or_count(word)
    }

    /// The place of a callee's word, or the number of callees where it has no definition.
    #[inline]
    pub fn callee(&self, word: u64) -> usize
        ensures { result ≡ place_or_count self.now.uses.callees.words word }
    {
        self.uses.callees.place_or_count(word)
    }

    /// The place of a block's word, or the number of blocks where it has no definition.
    #[inline]
    pub fn block(&self, word: u64) -> usize
        ensures { result ≡ place_or_count self.now.uses.blocks.words word }
    {
        self.uses.blocks.place_or_count(word)
    }

    /// How the chain of a value's word ends.
    #[inline]
    fn end(&self, word: u64) -> End
        ensures { result ≡ end_of self.now.uses.values.words self.now.ends word }
    {
        match self.uses.values.words.place(word) {
            None => End::Nowhere,
            Some(place) => match self.ends.get(place) {
                Some(end) => end,
                None => End::Nowhere,
            },
        }
    }

    /// The number of the value that a word stands for, after alias lines, or the number of values where it stands for
    /// none. Values are numbered in order of definition.
    #[inline]
    pub fn value(&self, word: u64) -> usize
        ensures { result ≡ value_number self.now word }
    {
        let place = match self.end(word) {
            End::At(place) => place,
            End::Nowhere | End::Endless => self.uses.values.words.len(),
        };
        match self.values_before.get(place) {
            Some(count) => count,
            None => 0,
        }
    }

    /// The least spots of the function's faults. Takes time linear in the function's text, but for the same logarithm.
    pub fn least(&self, func: &RawFunction) -> LeastSpots
        requires { AreNamesOf func.now self.now }
        ensures { AreLeast (FunctionFault func.now) result }
    {
        LeastSpots::of_function(&self.uses, self.endless, func)
    }
}

/// The words of a function before any use.
fn begun(tables: Tables) -> Uses
    ensures { result ≡ uses_of tables }
{
    Uses {
        slots: tables.slots,
        sigs: tables.sigs,
        callees: tables.callees,
        blocks: tables.blocks,
        values: tables.values,
        outside: None,
        defined: 0,
        untyped: None,
    }
}
