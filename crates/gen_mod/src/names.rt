//! The names and the signature of generated functions.
ghost use Rattle.std.specs.Prelude.{◌≡◌, IfOk};
ghost use Rattle.gen_mod.specs.Shapes as spec;

use ir_core::{Callee, Conv, Ext, Few, FuncName, NameBytes, Param, Purpose, Sig, SigRef, Ty};
use std::alloc::{AllocError, Global};

/// A parameter of 64 bits.
const WORD: Param = Param {
    ty: Ty::I64,
    ext: Ext::No,
    purpose: Purpose::Normal,
};

/// `(i64) -> i64 fast`
pub(crate) fn signature() -> Sig
    ensures { result ≡ spec.signature }
{
    Sig {
        params: Few::one(WORD),
        results: Few::one(WORD),
        conv: Conv::Fast,
    }
}

/// `%g` with the number.
pub(crate) fn generated_name(alloc: Global, number: u32) -> Result<FuncName, AllocError>
    ensures { IfOk result (λ name. name ≡ spec.generated_name number) }
{
    let mut text = Vec::from_slice(alloc, b"g".as_slice())?;
    text.extend_from_slice(itoa::Buffer::new().format(number).as_bytes())?;
    Ok(FuncName::Text(NameBytes::from_slice(alloc, text.as_slice())?))
}

/// `%host`
pub(crate) fn host_name(alloc: Global) -> Result<FuncName, AllocError>
    ensures { IfOk result (λ name. name ≡ spec.host_name) }
{
    Ok(FuncName::Text(NameBytes::from_slice(alloc, b"host".as_slice())?))
}

/// A function of the signature `sig0`.
pub(crate) fn callee(name: FuncName) -> Callee
    ensures { result ≡ spec.callee name }
{
    Callee {
        name,
        colocated: false,
        sig: SigRef::new(0),
    }
}
