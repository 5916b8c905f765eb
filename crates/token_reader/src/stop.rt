//! Why reading stopped.

ghost use Rattle.std.specs.Prelude.{◌≡◌};
ghost use Rattle.token_reader.specs.declared.stop.Stop.TheVariants.{NoMemory};

use clif_lex::TextKind;
use std::alloc::{AllocError, AllocFailed};
use std::error::Error;
use std::fmt;

/// Why reading stopped at a token, or at the end.
#[derive(Clone, Copy, Debug, PartialEq, Eq)]
pub enum Stop {
    /// The token is out of place, or one is missing.
    Syntax,
    /// The token is a word in the place of an opcode, and no opcode.
    UnknownOpcode,
    /// The token is a word of CLIF that is left out here.
    Unsupported,
    /// Memory ran out.
    NoMemory,
}

impl fmt::Display for Stop {
    fn fmt<W: fmt::Write>(&self, f: &mut fmt::Formatter<W>) -> fmt::Result {
        match self {
            Stop::Syntax => write!(f, "{}", TextKind::Syntax),
            Stop::UnknownOpcode => write!(f, "{}", TextKind::UnknownOpcode),
            Stop::Unsupported => write!(f, "{}", TextKind::Unsupported),
            Stop::NoMemory => write!(f, "out of memory"),
        }
    }
}

impl Error for Stop {}

impl From<AllocError> for Stop {
    ghost from_gives = { λ _ e. e ≡ NoMemory };

    fn from(_: AllocError) -> Self {
        Stop::NoMemory
    }
}

impl<T: Drop> From<AllocFailed<T>> for Stop {
    ghost from_gives = { λ _ e. e ≡ NoMemory };

    fn from(_: AllocFailed<T>) -> Self {
        Stop::NoMemory
    }
}
