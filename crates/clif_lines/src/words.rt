//! The numbers that a function's words have in the module.
ghost use Rattle.std.specs.Prelude.{◌≡◌};
ghost use Rattle.clif_lines.specs.WordNumbers.{AreSmall, numbers_in};

use clif_names::FunctionNames;
use ir_core::{Block, FuncRef, SigRef, Slot, Value};
use token_reader::RawName;

/// The number of each word of a function. A word without a definition has the number behind all.
#[derive(Drop)]
pub struct WordNumbers<'a> {
    /// The function's names.
    pub names: &'a FunctionNames,
    /// The number of each declared signature in the list of all, and at last how many these are.
    pub sigs: Vec<usize>,
    pub ghost small: { AreSmall (numbers_in names.now sigs.items) },
}

impl<'a> WordNumbers<'a> {
    ghost use Rattle.clif_lines.specs.WordRenaming.{renaming};

    /// The value that a word stands for, after alias lines.
    #[inline]
    pub fn value(&self, name: RawName) -> Value
        ensures { result ≡ (renaming self.now).value name.number }
    {
        Value::new(self.names.value(name.number) as u32)
    }

    /// The block of a word.
    #[inline]
    pub fn block(&self, name: RawName) -> Block
        ensures { result ≡ (renaming self.now).block name.number }
    {
        Block::new(self.names.block(name.number) as u32)
    }

    /// The slot of a word.
    #[inline]
    pub fn slot(&self, name: RawName) -> Slot
        ensures { result ≡ (renaming self.now).slot name.number }
    {
        Slot::new(self.names.slot(name.number) as u32)
    }

    /// The signature of a word, among all of the function.
    #[inline]
    pub fn sig(&self, name: RawName) -> SigRef
        ensures { result ≡ (renaming self.now).sig name.number }
    {
        match self.sigs.get(self.names.sig(name.number)) {
            Some(number) => SigRef::new(*number as u32),
            None => SigRef::new(0),
        }
    }

    /// The callee of a word.
    #[inline]
    pub fn callee(&self, name: RawName) -> FuncRef
        ensures { result ≡ (renaming self.now).callee name.number }
    {
        FuncRef::new(self.names.callee(name.number) as u32)
    }
}
