//! An index of signatures.
ghost use Rattle.std.specs.Prelude.{◌≡◌, Some, IfOk, OnOk, IfSome};
ghost use Rattle.sig_numbers.specs.Index.{IsIndex, Keeps, number_at, number_of};

use body_import::{is_same_sig, sig_key};
use ir_core::Sig;
use std::alloc::{AllocError, Global};
use std::collections::BTreeMap;

/// A signature and its number.
#[derive(Clone, Copy)]
pub(crate) struct Numbered<'a> {
    pub(crate) sig: &'a Sig,
    pub(crate) number: usize,
}

/// The number of each signature that was put in, by its key.
#[derive(Drop)]
pub(crate) struct SigIndex<'a> {
    pub(crate) map: BTreeMap<Vec<u32>, usize>,
    /// The one that was numbered last, since the next is mostly the same.
    pub(crate) last: Option<Numbered<'a>>,
}

impl<'a> SigIndex<'a> {
    /// The index of no signature.
    pub(crate) fn new(alloc: Global) -> SigIndex<'a>
        ensures { IsIndex result }
    {
        SigIndex {
            map: BTreeMap::new(alloc),
            last: None,
        }
    }

    /// The number of a key. A new key gets the next one. Only `AllocError` refuses.
    fn number_key(&mut self, key: Vec<u32>) -> Result<usize, AllocError>
        requires { IsIndex self.old }
        ensures index { OnOk result (IsIndex self.new) }
        ensures keeps { OnOk result (Keeps self.old self.new) }
        ensures number { IfOk result (λ n. number_at self.new key.items ≡ Some n) }
    {
        if let Some(number) = self.map.get(key.as_slice()).copied() {
            return Ok(number);
        }
        let number = self.map.len();
        self.map.insert(key, number)?;
        Ok(number)
    }

    /// The number of a signature that is the same as the last one.
    fn number_again(&self, sig: &Sig) -> Option<usize>
        requires { IsIndex self.now }
        ensures { IfSome result (λ n. number_of self.now sig.now ≡ Some n) }
    {
        match self.last {
            Some(last) if is_same_sig(last.sig, sig) => Some(last.number),
            _ => None,
        }
    }

    /// The number of a signature: equal ones have one number, others have different numbers. It takes time linear in
    /// the signature, times the logarithm of the number of signatures where it differs from the last one. Only
    /// `AllocError` refuses.
    pub(crate) fn number(&mut self, alloc: Global, sig: &'a Sig) -> Result<usize, AllocError>
        requires { IsIndex self.old }
        ensures index { OnOk result (IsIndex self.new) }
        ensures keeps { OnOk result (Keeps self.old self.new) }
        ensures number { IfOk result (λ n. number_of self.new sig.now ≡ Some n) }
    {
        if let Some(number) = self.number_again(sig) {
            return Ok(number);
        }
        let key = sig_key(alloc, sig)?;
        let number = self.number_key(key)?;
        self.last = Some(Numbered { sig, number });
        Ok(number)
    }
}
