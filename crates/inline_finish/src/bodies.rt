//! Finished bodies, and where those of other functions come from.
ghost use Rattle.ir_core.specs.Lists.{In};
ghost use Rattle.ir_core.specs.Module as definitions;
ghost use Rattle.inline_pass.specs.Policy as pass;
ghost use Rattle.inline_finish.specs.Bodies.{IsBodyOf, AreCountsOf};
ghost use Rattle.std.specs.Prelude.{ℕ, List};

use ir_check::Checked;
use ir_core::Func;
use splice_size::Counts;

/// Which calls are inlined: a body of at most `callee_size` goes into a function that then has at most `caller_size`.
#[derive(Clone, Copy, PartialEq, Eq)]
pub struct Policy {
    pub callee_size: usize,
    pub caller_size: usize,
}

/// The finished body of a function.
#[derive(Drop)]
pub struct Built {
    pub func: Func,
    /// How many of the function's own sites were inlined.
    pub inlined: u64,
    /// What counts where the body comes in place of a call; `None` where it is larger than the policy's callee size.
    pub counts: Option<Counts>,
}

/// The finished bodies of a module, in its order.
#[derive(Drop)]
pub struct Passed {
    pub module: Checked,
    /// How many sites were inlined in all.
    pub inlined: u128,
    /// How many of each function's own sites were inlined, in the module's order.
    pub inlined_by_function: Vec<u64>,
}

/// Finished bodies of functions of a module.
pub trait Bodies {
    /// The module.
    ghost functions: { Self → definitions.Module };

    /// The policy by which they are finished.
    ghost policy: { Self → pass.Policy };

    /// The functions that there are bodies of.
    ghost has: { Self → List ℕ };

    /// The finished body of a function, up to the numbers of values and blocks.
    fn body(&self, func: usize) -> &Func
        requires { In func (has self.now) }
        ensures { IsBodyOf (policy self.now) (functions self.now) func result.now.function };

    /// What counts where that body comes in place of a call; `None` where it is larger than the policy's callee size.
    fn counts(&self, func: usize) -> Option<Counts>
        requires { In func (has self.now) }
        ensures { AreCountsOf (policy self.now) (functions self.now) func result };

    /// The number of a function whose name is worth trying first where a callee's is looked for. It is only a hint: it
    /// may be any number, or none.
    fn likely_callee(&self) -> Option<usize>;
}
