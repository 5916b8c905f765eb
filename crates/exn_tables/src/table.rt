//! The exception table of a `try_call`, and its search for a handler.
ghost use Rattle.std.specs.Prelude.{◌≡◌, ◌<◌, ◌++◌, List, IfOk, IfSome, length, position};
ghost use Rattle.std.specs.Cmp.Lexicographic.{pointwise, lists_per, lists_equiv};
ghost use Rattle.std.specs.Cmp.Rules.{comparing};
ghost use Rattle.std.proofs.Common.{rules};
ghost use Rattle.exn_tables.specs.declared.table.Entry.{Entry};
ghost use Rattle.exn_tables.specs.Table.{takes, ClonesAreEqual};

use std::alloc::{AllocError, Global};
use std::marker::Model;

/// One entry of an exception table: a tag and where its exceptions go.
#[derive(Clone, PartialEq, Eq, Drop)]
pub struct Entry<T> {
    /// The tag whose exceptions the entry takes; `None` is `default`, which takes every tag.
    pub tag: Option<u32>,
    /// Where the run goes on.
    pub target: T,
}

impl<T> Entry<T> {
    /// Whether exceptions with this tag go to the entry's target.
    pub fn takes(&self, tag: u32) -> bool
        ensures { result ≡ takes tag self.now }
    {
        self.tag.is_none_or(|own| own == tag)
    }
}

/// The exception table of one call, in written order. Contracts see it as the list of its entries.
#[derive(Drop)]
pub struct Table<T> {
    entries: Vec<Entry<T>>,
}

impl<T> Model for Table<T> {
    ghost Value = { List (Entry T) };

    ghost view = { λ t. t.entries.items };
}

impl<T> Table<T> {
    /// The table of these entries, in this order.
    pub fn new(entries: Vec<Entry<T>>) -> Table<T>
        ensures { result ≡ entries.items }
    {
        Table { entries }
    }

    /// The entries, in written order.
    pub fn entries(&self) -> &[Entry<T>]
        ensures { result.now ≡ self.now }
    {
        self.entries.as_slice()
    }

    /// The place of the first entry, in written order, that has this tag or is `default`. `None` exactly where there is
    /// no such entry.
    pub fn find(&self, tag: u32) -> Option<usize>
        ensures first { result ≡ position (takes tag) self.now }
        ensures inside { IfSome result (λ place. place < length self.now) }
    {
        self.entries.iter().position(|entry| entry.takes(tag))
    }
}

/// The entries of `inner`, then those of `outer`: the table of a call of the inlined function, at a call site whose own
/// table is `outer`. Only `AllocError` refuses.
pub fn joined<T: Clone>(
    alloc: Global,
    inner: &Table<T>,
    outer: &Table<T>,
) -> Result<Table<T>, AllocError>
    requires { ClonesAreEqual T.is_clone }
    ensures { IfOk result (λ t. t ≡ inner.now ++ outer.now) }
{
    let mut entries = Vec::from_clones(alloc, inner.entries())?;
    entries.extend_with_clones(outer.entries())?;
    Ok(Table::new(entries))
}

impl<T: Clone> Clone for Table<T> {
    ghost is_clone = { λ t copy. ClonesAreEqual T.is_clone → copy ≡ t };

    fn clone(&self) -> Result<Table<T>, AllocError> {
        Ok(Table::new(self.entries.clone()?))
    }
}

impl<T: PartialEq> PartialEq for Table<T> {
    ghost eq = { λ t u. pointwise ⟦<Entry<T> as PartialEq>⟧.eq t u };

    ghost laws = { lists_per (Prim.search (comparing, rules, T.laws)) };

    fn eq(&self, other: &Table<T>) -> bool {
        self.entries() == other.entries()
    }
}

impl<T: Eq> Eq for Table<T> {
    ghost laws = { lists_equiv (Prim.search (comparing, rules, T.Eq.laws)) };
}
