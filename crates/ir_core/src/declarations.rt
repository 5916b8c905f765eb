//! Declarations of a function.
ghost use Rattle.std.specs.Prelude.{◌≡◌};

use crate::names::FuncName;
use crate::numbers::SigRef;
use std::alloc::AllocError;

/// An explicit stack slot: its size and alignment in bytes.
#[derive(Clone, Copy, PartialEq, Eq)]
pub struct SlotDecl {
    pub size: u32,
    pub align: u32,
}

/// A function that may be called: its name and the number of its signature in the function's list.
#[derive(Drop)]
pub struct Callee {
    pub name: FuncName,
    pub colocated: bool,
    pub sig: SigRef,
}

impl Clone for Callee {
    ghost is_clone = { λ callee copy. copy ≡ callee };

    fn clone(&self) -> Result<Callee, AllocError> {
        Ok(Callee {
            name: self.name.clone()?,
            colocated: self.colocated,
            sig: self.sig,
        })
    }
}
