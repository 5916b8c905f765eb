//! Types and signatures.
ghost use Rattle.std.specs.Prelude.{◌≡◌};
ghost use Rattle.ir_core.specs.Lookup.{ty_of, width_of};
ghost use Rattle.ir_core.specs.Signatures.{same_type};

use clk_num::Width;
use containers::Few;
use std::alloc::AllocError;

/// The type of a value: an integer of 8, 16, 32, 64 or 128 bits.
#[derive(Clone, Copy, Debug, PartialEq, Eq)]
pub enum Ty {
    I8,
    I16,
    I32,
    I64,
    I128,
}

impl Ty {
    /// The type of the values of a width.
    pub fn of_width(width: Width) -> Ty
        ensures { result ≡ ty_of width }
    {
        match width {
            Width::W8 => Ty::I8,
            Width::W16 => Ty::I16,
            Width::W32 => Ty::I32,
            Width::W64 => Ty::I64,
            Width::W128 => Ty::I128,
        }
    }

    /// The width of its values.
    pub fn width(self) -> Width
        ensures { result ≡ width_of self }
    {
        match self {
            Ty::I8 => Width::W8,
            Ty::I16 => Width::W16,
            Ty::I32 => Width::W32,
            Ty::I64 => Width::W64,
            Ty::I128 => Width::W128,
        }
    }

    /// Whether the two are the same type.
    pub fn is(self, other: Ty) -> bool
        ensures { result ≡ same_type self other }
    {
        match self {
            Ty::I8 => matches!(other, Ty::I8),
            Ty::I16 => matches!(other, Ty::I16),
            Ty::I32 => matches!(other, Ty::I32),
            Ty::I64 => matches!(other, Ty::I64),
            Ty::I128 => matches!(other, Ty::I128),
        }
    }
}

/// A calling convention.
#[derive(Clone, Copy, PartialEq, Eq)]
pub enum Conv {
    Fast,
    Cold,
    Tail,
    SystemV,
    WindowsFastcall,
    AppleAarch64,
    Probestack,
    Winch,
}

/// How an argument narrower than its register is extended.
#[derive(Clone, Copy, Debug, PartialEq, Eq)]
pub enum Ext {
    No,
    Uext,
    Sext,
}

/// What a parameter is for.
#[derive(Clone, Copy, Debug, PartialEq, Eq)]
pub enum Purpose {
    Normal,
    Vmctx,
    Sret,
}

/// A parameter or a result of a signature.
#[derive(Clone, Copy, Debug, PartialEq, Eq)]
pub struct Param {
    pub ty: Ty,
    pub ext: Ext,
    pub purpose: Purpose,
}

/// A signature: parameters, results and the calling convention.
#[derive(Drop)]
pub struct Sig {
    pub params: Few<Param>,
    pub results: Few<Param>,
    pub conv: Conv,
}

impl Clone for Sig {
    ghost is_clone = { λ sig copy. copy ≡ sig };

    fn clone(&self) -> Result<Sig, AllocError> {
        Ok(Sig {
            params: self.params.clone()?,
            results: self.results.clone()?,
            conv: self.conv,
        })
    }
}
