//! Faults of a module.
use crate::kinds::CheckKind;
use ir_core::Item;

/// A rule that a part of a function does not keep. `func` is the function's place in the module.
#[derive(Clone, Copy, Debug, PartialEq, Eq)]
pub struct Fault {
    pub kind: CheckKind,
    pub func: usize,
    pub item: Item,
}
