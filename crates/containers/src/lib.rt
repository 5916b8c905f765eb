//! What functions and modules are kept in: a value behind a pointer, lists, and the bytes of a name, each of which
//! contracts see as the plain value or list.
#![tactic(auto)]

mod boxed;
mod few;
mod lists;
mod name_bytes;

pub use boxed::Boxed;
pub use few::Few;
pub use lists::List;
pub use name_bytes::{NameBytes, are_same_bytes};
