//! Finished bodies, handed on where they stand.
ghost use Rattle.std.specs.Prelude.{◌≡◌, ◌<◌, Some, length, slice_get};
ghost use Rattle.ir_core.specs.Lists.{Each};
ghost use Rattle.ir_core.specs.Sound.{IsWhole};
ghost use Rattle.ir_core.specs.WellFormed.{WellFormed};
ghost use Rattle.worker_driver.specs.Gathered.{functions_in};

use inline_finish::Built;
use ir_core::Func;
use std::marker::Model;
use std::sync::Arc;

/// The finished bodies of a module's functions, in its order, where the workers left them. Contracts see it as a list
/// of functions.
#[derive(Drop)]
pub struct Finished {
    bodies: Vec<Arc<Built>>,
}

impl Model for Finished {
    ghost use Rattle.std.specs.Prelude.{List};
    ghost use Rattle.ir_core.specs.Module.{Function};

    ghost Value = { List Function };

    ghost use Rattle.ir_core.specs.Lists.{Each};
    ghost use Rattle.ir_core.specs.WellFormed.{WellFormed};
    ghost use Rattle.worker_driver.specs.Gathered.{functions_in};

    ghost view = { λ s. functions_in s.bodies.items };

    ghost invariant = { λ s. Each WellFormed (functions_in s.bodies.items) };
}

impl Finished {
    /// The functions of these bodies, in this order; the list is kept as it is.
    pub(crate) fn of_bodies(bodies: Vec<Arc<Built>>) -> Finished
        requires { Each WellFormed (functions_in bodies.items) }
        ensures { result ≡ functions_in bodies.items }
    {
        Finished { bodies }
    }

    /// How many functions there are.
    pub fn len(&self) -> usize
        ensures { result ≡ length self.now }
    {
        self.bodies.len()
    }

    /// The finished body of the function at a place.
    pub fn func(&self, place: usize) -> &Func
        requires { place < length self.now }
        ensures same { slice_get self.now place ≡ Some result.now.function }
        ensures whole { IsWhole result.now.function }
    {
        let func = &self.bodies[place].func;
        // That every number in it is in range, any call on it tells.
        let _count = func.values();
        func
    }
}
