//! Lists, as contracts see them.
ghost use Rattle.std.specs.Prelude.{◌≡◌, List};
ghost use Rattle.exn_tables.specs.Table.{ClonesAreEqual};

use std::alloc::AllocError;
use std::marker::Model;

/// A list. Contracts see its items in order.
#[derive(Drop)]
pub struct List<T> {
    items: Vec<T>,
}

impl<T> Model for List<T> {
    ghost Value = { List T };

    ghost view = { λ l. l.items.items };
}

impl<T> List<T> {
    /// The list of a vector's items. It takes no memory.
    pub fn from_vec(items: Vec<T>) -> List<T>
        ensures { result ≡ items.items }
    {
        List { items }
    }

    /// The items in order.
    pub fn as_slice(&self) -> &[T]
        ensures { result.now ≡ self.now }
    {
        self.items.as_slice()
    }

    /// The vector of the items. It takes no memory.
    pub fn into_vec(self) -> Vec<T>
        ensures { result.items ≡ self }
    {
        let List { items } = self;
        items
    }
}

impl<T: Clone> Clone for List<T> {
    ghost is_clone = { λ l copy. ClonesAreEqual T.is_clone → copy ≡ l };

    fn clone(&self) -> Result<List<T>, AllocError> {
        Ok(List {
            items: self.items.clone()?,
        })
    }
}
