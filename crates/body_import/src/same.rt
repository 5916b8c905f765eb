//! Whether signatures are the same.
ghost use Rattle.std.specs.Prelude.{◌≡◌};
ghost use Rattle.ir_core.specs.Signatures.{same_conv, same_ext, same_purpose, same_param, same_params, same_sig};

use ir_core::{Conv, Ext, Param, Purpose, Sig};

/// Whether two ways of extending are one.
fn is_same_ext(a: Ext, b: Ext) -> bool
    ensures { result ≡ same_ext a b }
{
    match a {
        Ext::No => matches!(b, Ext::No),
        Ext::Uext => matches!(b, Ext::Uext),
        Ext::Sext => matches!(b, Ext::Sext),
    }
}

/// Whether two purposes are one.
fn is_same_purpose(a: Purpose, b: Purpose) -> bool
    ensures { result ≡ same_purpose a b }
{
    match a {
        Purpose::Normal => matches!(b, Purpose::Normal),
        Purpose::Vmctx => matches!(b, Purpose::Vmctx),
        Purpose::Sret => matches!(b, Purpose::Sret),
    }
}

/// Whether two calling conventions are one.
fn is_same_conv(a: Conv, b: Conv) -> bool
    ensures { result ≡ same_conv a b }
{
    match a {
        Conv::Fast => matches!(b, Conv::Fast),
        Conv::Cold => matches!(b, Conv::Cold),
        Conv::Tail => matches!(b, Conv::Tail),
        Conv::SystemV => matches!(b, Conv::SystemV),
        Conv::WindowsFastcall => matches!(b, Conv::WindowsFastcall),
        Conv::AppleAarch64 => matches!(b, Conv::AppleAarch64),
        Conv::Probestack => matches!(b, Conv::Probestack),
        Conv::Winch => matches!(b, Conv::Winch),
    }
}

/// Whether two parameters are the same.
fn is_same_param(a: Param, b: Param) -> bool
    ensures { result ≡ same_param a b }
{
    a.ty.is(b.ty) && is_same_ext(a.ext, b.ext) && is_same_purpose(a.purpose, b.purpose)
}

/// Whether two lists of parameters are the same.
fn are_same_params(a: &[Param], b: &[Param]) -> bool
    ensures { result ≡ same_params a.now b.now }
{
    if a.len() != b.len() {
        return false;
    }
    for i in 0..a.len() {
        if !is_same_param(a[i], b[i]) {
            return false;
        }
    }
    true
}

/// Whether two signatures are the same. It takes no more steps than the first has parameters and results.
#[tactic(auto, unfolding(ir_core::specs::Signatures::same_sig))]
pub fn is_same_sig(a: &Sig, b: &Sig) -> bool
    ensures { result ≡ same_sig a.now b.now }
{
    is_same_conv(a.conv, b.conv)
        && are_same_params(a.params.as_slice(), b.params.as_slice())
        && are_same_params(a.results.as_slice(), b.results.as_slice())
}
