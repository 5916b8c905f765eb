//! The rules of one function, without its module.
ghost use Rattle.std.specs.Prelude.{◌≡◌, [], true};
ghost use Rattle.ir_core.specs.Sound.{IsWhole};
ghost use Rattle.ir_semantics.specs.Accepted.{RulesHold};

use crate::early::{find_fault_in_blocks, find_first};
use crate::late::find_use_in_func;
use ir_core::Func;
use sig_numbers::OwnSigs;
use std::alloc::Global;

/// Whether a function keeps every rule but that on its callee declarations, which speaks of other functions. False also
/// where memory runs out. It takes the time that `check` takes for the function.
pub fn keeps_own_rules(alloc: Global, func: &Func) -> bool
    requires { IsWhole func.now.function }
    ensures { result ≡ true → RulesHold [] func.now.function }
{
    let Ok(sigs) = OwnSigs::of(alloc, func) else {
        return false;
    };
    if find_fault_in_blocks(func, &sigs.sigs(), 0, find_first(func)).is_some() {
        return false;
    }
    matches!(find_use_in_func(alloc, func, 0), Ok(None))
}
