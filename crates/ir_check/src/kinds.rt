//! The kinds of faults of a module.

/// The rule that a part of a function does not keep.
#[derive(Clone, Copy, Debug, PartialEq, Eq)]
pub enum CheckKind {
    NoTerminator,
    EntryTarget,
    CountMismatch,
    TypeMismatch,
    Convention,
    SignatureMismatch,
    SlotRange,
    TagPlace,
    NotAvailable,
}
