//! Types of parameters and results.
ghost use Rattle.std.specs.Prelude.{◌≡◌};
ghost use Rattle.std.specs.Cmp.Lexicographic.{pointwise};
ghost use Rattle.ir_core.specs.Lookup.{param_types};
ghost use Rattle.ir_core.specs.Signatures.{same_type};

use ir_core::Param;

/// Whether two lists of parameters have the same types. It takes no more steps than the first has parameters.
pub(crate) fn have_same_types(a: &[Param], b: &[Param]) -> bool
    ensures { result ≡ pointwise same_type (param_types a.now) (param_types b.now) }
{
    if a.len() != b.len() {
        return false;
    }
    for i in 0..a.len() {
        if !a[i].ty.is(b[i].ty) {
            return false;
        }
    }
    true
}
