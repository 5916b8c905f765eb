//! Lists that mostly have one item, as contracts see them.
ghost use Rattle.std.specs.Prelude.{◌≡◌, ◌∷◌, []};
ghost use Rattle.exn_tables.specs.Table.{ClonesAreEqual};

use std::alloc::AllocError;
use std::marker::Model;

/// A list that mostly has one item: one takes no memory but the list's own. Contracts see its items in order.
#[derive(Drop)]
pub struct Few<T> {
    kept: OneOrMany<T>,
}

#[derive(Drop)]
enum OneOrMany<T> {
    One([T; 1]),
    Many(Vec<T>),
}

impl<T> Model for Few<T> {
    ghost use Rattle.std.specs.Prelude.{List};

    ghost Value = { List T };

    ghost use Rattle.containers.specs.Few.{items_of};

    ghost view = { λ few. items_of few.kept };
}

impl<T> Few<T> {
    /// The list of one item. It takes no memory.
    #[inline]
    pub fn one(item: T) -> Few<T>
        ensures { result ≡ item ∷ [] }
    {
        Few {
            kept: OneOrMany::One([item]),
        }
    }

    /// The list of a vector's items. It takes no memory.
    #[inline]
    pub fn from_vec(items: Vec<T>) -> Few<T>
        ensures { result ≡ items.items }
    {
        Few {
            kept: OneOrMany::Many(items),
        }
    }

    /// The items in order.
    #[inline]
    pub fn as_slice(&self) -> &[T]
        ensures { result.now ≡ self.now }
    {
        match &self.kept {
            OneOrMany::One(items) => items.as_slice(),
            OneOrMany::Many(items) => items.as_slice(),
        }
    }
}

impl<T: Clone> Clone for Few<T> {
    ghost is_clone = { λ few copy. ClonesAreEqual T.is_clone → copy ≡ few };

    fn clone(&self) -> Result<Few<T>, AllocError> {
        match &self.kept {
            OneOrMany::One([item]) => Ok(Few::one(item.clone()?)),
            OneOrMany::Many(items) => Ok(Few::from_vec(items.clone()?)),
        }
    }
}
