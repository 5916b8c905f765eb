//! What stays in memory of a function of a text.
ghost use Rattle.std.specs.Prelude.{◌≡◌, ◌≢◌, [], ◌∷◌, IfSome};
ghost use Rattle.ir_core.specs.Edits.{head_of};
ghost use Rattle.ir_core.specs.Sound.{IsWhole};
ghost use Rattle.clif_check.specs.Declarations.{KeepsOwnRules};
ghost use Rattle.clif_check.specs.Stretches.{AreKept, part_of};

use clif_read::RawFunction;
use clif_resolve::meant_function;
use ir_check::keeps_own_rules;
use ir_core::{Boxed, Func};
use std::alloc::Global;

/// What stays in memory of each function of a text, once it is known to keep every rule but that on its callee
/// declarations.
#[derive(Clone, Copy)]
pub(crate) enum Part {
    /// All of it.
    Whole,
    /// Its head.
    Head,
}

/// The head of a function. Its body is let go.
fn take_head(func: Func) -> Func
    ensures { result.function ≡ head_of func.function }
{
    let mut head = func;
    head.drop_body();
    head
}

/// What is to stay of a whole function. `None` where it breaks a rule other than that on its callee declarations, or
/// memory runs out.
fn keep_part(alloc: Global, func: Func, part: Part) -> Option<Boxed<Func>>
    requires { IsWhole func.function }
    ensures own { IfSome result (λ kept. KeepsOwnRules func.function) }
    ensures kept { IfSome result (λ kept. kept.function ≡ part_of part func.function) }
{
    if !keeps_own_rules(alloc, &func) {
        return None;
    }
    let kept = match part {
        Part::Whole => func,
        Part::Head => take_head(func),
    };
    match Boxed::new(alloc, kept) {
        Ok(kept) => Some(kept),
        Err(_) => None,
    }
}

/// What stays of a function. `None` where it has a fault of names or numbers or breaks a rule of its own, or memory
/// runs out.
pub(crate) fn keep_function(alloc: Global, raw: &RawFunction, part: Part) -> Option<Boxed<Func>>
    requires { raw.now.blocks ≢ [] }
    ensures { IfSome result (λ func. AreKept part (raw.now ∷ []) (func ∷ [])) }
{
    let Ok(Some(func)) = meant_function(alloc, raw) else {
        return None;
    };
    keep_part(alloc, func, part)
}
