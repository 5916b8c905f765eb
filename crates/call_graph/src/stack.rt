//! Lists of numbers that grow at one end. Contracts see them with the topmost first.
ghost use Rattle.std.specs.Prelude.{◌≡◌, List, [], ◌∷◌, ◌++◌, slice_get, IfOk, OnOk};
ghost use Rattle.call_graph.specs.Stacks.{tail_of};

use std::alloc::{AllocError, Global};
use std::marker::Model;

/// A stack of numbers. None or one take no memory but the stack's own.
#[derive(Drop)]
pub(crate) struct Stack {
    storage: Storage,
    alloc: Global,
}

#[derive(Drop)]
enum Storage {
    None,
    One(usize),
    /// The topmost last.
    Many(Vec<usize>),
}

impl Model for Stack {
    ghost use Rattle.std.specs.Prelude.{ℕ, List};
    ghost use Rattle.call_graph.specs.Stacks.{stacked};

    ghost Value = { List ℕ };

    ghost view = { λ s. stacked s.storage };
}

impl Stack {
    /// The empty stack. It takes no memory.
    pub(crate) fn new(alloc: Global) -> Stack
        ensures { result ≡ [] }
    {
        Stack {
            storage: Storage::None,
            alloc,
        }
    }

    pub(crate) fn push(&mut self, item: usize) -> Result<(), AllocError>
        ensures { OnOk result (self.new ≡ item ∷ self.old) }
    {
        match &mut self.storage {
            Storage::None => self.storage = Storage::One(item),
            Storage::One(below) => self.storage = Storage::Many(two(self.alloc, *below, item)?),
            Storage::Many(items) => items.push(item)?,
        }
        Ok(())
    }

    pub(crate) fn top(&self) -> Option<usize>
        ensures { result ≡ slice_get self.now 0 }
    {
        match &self.storage {
            Storage::None => None,
            Storage::One(item) => Some(*item),
            Storage::Many(items) => items.last().copied(),
        }
    }

    pub(crate) fn pop(&mut self) -> Option<usize>
        ensures top { result ≡ slice_get self.old 0 }
        ensures rest { self.new ≡ tail_of self.old }
    {
        match &mut self.storage {
            Storage::None => None,
            Storage::One(item) => {
                let item = *item;
                self.storage = Storage::None;
                Some(item)
            }
            Storage::Many(items) => items.pop(),
        }
    }

    /// Moves all items to the end of a list, the topmost first.
    pub(crate) fn pour(&mut self, list: &mut Vec<usize>) -> Result<(), AllocError>
        ensures list { OnOk result (list.new.items ≡ list.old.items ++ self.old) }
        ensures emptied { OnOk result (self.new ≡ []) }
    {
        'items: while let Some(item) = self.pop() {
            list.push(item)?;
        }
        Ok(())
    }
}

/// A vector of two numbers, with room for more.
fn two(alloc: Global, first: usize, second: usize) -> Result<Vec<usize>, AllocError>
    ensures { IfOk result (λ items. items.items ≡ first ∷ second ∷ []) }
{
    let mut items = Vec::with_capacity(alloc, 4)?;
    items.push(first)?;
    items.push(second)?;
    Ok(items)
}
