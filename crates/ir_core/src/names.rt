//! Names of functions.
ghost use Rattle.std.specs.Prelude.{◌≡◌};
ghost use Rattle.ir_core.specs.Lookup.{same_name};
ghost use Rattle.ir_core.specs.Named.{name_hash};

use containers::{NameBytes, are_same_bytes};
use std::alloc::AllocError;
use std::hash::{FoldHasher, Hasher};

/// The name of a function: `%` and text, or `u` and two numbers, as `%main` and `u0:1`.
#[derive(Drop)]
pub enum FuncName {
    /// The bytes behind `%`.
    Text(NameBytes),
    User(u32, u32),
}

impl Clone for FuncName {
    ghost is_clone = { λ name copy. copy ≡ name };

    fn clone(&self) -> Result<FuncName, AllocError> {
        match self {
            FuncName::Text(text) => Ok(FuncName::Text(text.clone()?)),
            FuncName::User(first, second) => Ok(FuncName::User(*first, *second)),
        }
    }
}

impl FuncName {
    /// A number that the name determines, and that few others have.
    pub(crate) fn hash(&self) -> u64
        ensures { result ≡ name_hash self.now }
    {
        let mut state = FoldHasher::default();
        match self {
            FuncName::Text(text) => state.write(text.as_slice()),
            FuncName::User(first, second) => {
                state.write_u32(*first);
                state.write_u32(*second);
            }
        }
        state.finish()
    }

    /// Whether the two are the same name.
    #[tactic(auto, using(crate::proofs::Equal::eq_bytes))]
    pub fn is(&self, other: &FuncName) -> bool
        ensures { result ≡ same_name self.now other.now }
    {
        match (self, other) {
            (FuncName::Text(text), FuncName::Text(others)) => {
                are_same_bytes(text.as_slice(), others.as_slice())
            }
            (FuncName::User(first, second), FuncName::User(others_first, others_second)) => {
                first == others_first && second == others_second
            }
            _ => false,
        }
    }
}
