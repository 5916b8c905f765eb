//! The signatures by which instructions call.
ghost use Rattle.std.specs.Prelude.{◌≡◌, ◌<◌, length, slice_get, Some};
ghost use Rattle.ir_core.specs.Lookup.{signature_number, signature_of};
ghost use Rattle.ir_core.specs.Module.{Direct};
ghost use Rattle.ir_core.specs.Signatures.{same_conv};
ghost use Rattle.ir_core.specs.declared.signatures.Conv.TheVariants.{Tail};
ghost use Rattle.ir_core.specs.Sound.{IsSound};

use ir_core::{Conv, Func, FuncRef, Sig, SigRef};

/// Whether a calling convention is `tail`.
pub fn is_tail(conv: Conv) -> bool
    ensures { result ≡ same_conv conv Tail }
{
    match conv {
        Conv::Tail => true,
        _ => false,
    }
}

/// The signature of this number.
pub fn named_sig(func: &Func, sig: SigRef) -> &Sig
    requires { sig < length func.now.function.sigs }
    ensures { slice_get func.now.function.sigs sig ≡ Some result.now }
{
    &func.sigs()[sig.number() as usize]
}

/// The number of the signature of a callee declaration.
pub fn callee_sig_ref(func: &Func, callee: FuncRef) -> SigRef
    requires sound { IsSound func.now.function }
    requires there { callee < length func.now.function.callees }
    ensures number { signature_number func.now.function (Direct callee) ≡ Some result }
    ensures inside { result < length func.now.function.sigs }
{
    func.callees()[callee.number() as usize].sig
}

/// The signature of a callee declaration.
pub fn callee_sig(func: &Func, callee: FuncRef) -> &Sig
    requires sound { IsSound func.now.function }
    requires there { callee < length func.now.function.callees }
    ensures { signature_of func.now.function (Direct callee) ≡ Some result.now }
{
    named_sig(func, callee_sig_ref(func, callee))
}
