//! Why a call refused.
ghost use Rattle.std.specs.Prelude.{◌≡◌};
ghost use Rattle.byte_store.specs.declared.errors.ShowErr.TheVariants.{NoMemory};

use std::alloc::AllocFailed;
use std::error::Error;
use std::fmt;

/// A byte of the range of a slot is unwritten.
#[derive(Clone, Copy, Debug, PartialEq, Eq)]
pub struct Unwritten;

impl fmt::Display for Unwritten {
    fn fmt<W: fmt::Write>(&self, f: &mut fmt::Formatter<W>) -> fmt::Result {
        write!(f, "a byte of the slot is unwritten")
    }
}

impl Error for Unwritten {}

/// The range passes the end of the memory.
#[derive(Clone, Copy, Debug, PartialEq, Eq)]
pub struct OutOfRange;

impl fmt::Display for OutOfRange {
    fn fmt<W: fmt::Write>(&self, f: &mut fmt::Formatter<W>) -> fmt::Result {
        write!(f, "the range passes the end of the memory")
    }
}

impl Error for OutOfRange {}

/// Why the bytes of a slot were not shown.
#[derive(Clone, Copy, Debug, PartialEq, Eq)]
pub enum ShowErr {
    /// A byte is unwritten.
    Unwritten,
    NoMemory,
}

impl fmt::Display for ShowErr {
    fn fmt<W: fmt::Write>(&self, f: &mut fmt::Formatter<W>) -> fmt::Result {
        match self {
            ShowErr::Unwritten => write!(f, "a byte of the slot is unwritten"),
            ShowErr::NoMemory => write!(f, "out of memory"),
        }
    }
}

impl Error for ShowErr {}

impl<T: Drop> From<AllocFailed<T>> for ShowErr {
    ghost from_gives = { λ _ e. e ≡ NoMemory };

    fn from(_failed: AllocFailed<T>) -> ShowErr {
        ShowErr::NoMemory
    }
}
