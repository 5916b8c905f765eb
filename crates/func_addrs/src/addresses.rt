//! Addresses of names.
ghost use Rattle.std.specs.Prelude.{◌≡◌, ◌<◌, ◌≤◌, ◌^◌, length, None, slice_get, IfOk, MatchOption};
ghost use Rattle.ir_semantics.specs.Names.{names, address, address_of, name_at};
ghost use Rattle.func_addrs.specs.Mentions.{names_of};
ghost use Rattle.func_addrs.specs.Listing.{IsOrdered};

use crate::mentions::{Mention, collect_mentions, keep_apart, sort_mentions};
use crate::order::compare_names;
use ir_core::{FuncName, Module};
use std::alloc::{AllocError, Global};

/// No memory has room for as many names.
const TOO_MANY: usize = 1 << 59;

/// The names of a module, each once, in order.
#[derive(Drop)]
pub struct FuncAddrs<'m> {
    pub names: Vec<Mention<'m>>,
}

/// The address of the name at a place.
fn address_at(place: usize) -> u64
    requires { place < 2 ^ 59 }
    ensures { result ≡ address place }
{
    (1 << 32) + 16 * place as u64
}

impl<'m> FuncAddrs<'m> {
    /// The names of a module's functions and callee declarations. They are sorted once.
    pub fn of_module(alloc: Global, module: &'m Module) -> Result<FuncAddrs<'m>, AllocError>
        ensures names { IfOk result (λ addrs. names_of addrs.names.items ≡ names «module».now) }
        ensures ordered { IfOk result (λ addrs. IsOrdered addrs) }
    {
        let mut mentions = collect_mentions(alloc, module)?;
        sort_mentions(&mut mentions);
        let names = keep_apart(alloc, mentions.as_slice())?;
        if names.len() >= TOO_MANY {
            return Err(AllocError);
        }
        Ok(FuncAddrs { names })
    }

    /// The address of a name, by a binary search.
    pub fn find(&self, name: &FuncName) -> Option<u64>
        requires { IsOrdered self.now }
        ensures { result ≡ address_of (names_of self.now.names.items) name.now }
    {
        match self
            .names
            .binary_search_by(|other| compare_names(other.name, name))
        {
            Ok(place) => Some(address_at(place)),
            Err(_) => None,
        }
    }

    /// The place of the name that has an address. It takes no search.
    pub fn place(&self, address: u128) -> Option<usize>
        ensures { MatchOption result (name_at (names_of self.now.names.items) address ≡ None)
            (λ k. (k < length self.now.names.items)
            × (name_at (names_of self.now.names.items) address ≡ slice_get (names_of self.now.names.items) k)) }
    {
        let first = 1 << 32;
        if address < first {
            return None;
        }
        let offset = address - first;
        if offset % 16 != 0 {
            return None;
        }
        let place = offset / 16;
        if place >= self.names.len() as u128 {
            return None;
        }
        Some(place as usize)
    }
}
