//! Functions in an order, wherever they stand.
ghost use Rattle.std.specs.Prelude.{◌≡◌, ◌<◌, List, Some, length, slice_get};
ghost use Rattle.ir_core.specs.Module.{Function};
ghost use Rattle.ir_core.specs.Sound.{IsWhole};

use ir_core::{Func, Module};

/// Functions in an order, which several workers may look at at once.
pub trait Functions: Sync {
    /// The functions.
    ghost functions: { Self → List Function };

    /// How many there are.
    fn len(&self) -> usize
        ensures { result ≡ length (functions self.now) };

    /// The function at a place.
    fn func(&self, place: usize) -> &Func
        requires { place < length (functions self.now) }
        ensures same { slice_get (functions self.now) place ≡ Some result.now.function }
        ensures whole { IsWhole result.now.function };
}

impl Functions for Module {
    ghost functions = { λ m. m };

    fn len(&self) -> usize {
        Module::len(self)
    }

    fn func(&self, place: usize) -> &Func {
        Module::func(self, place)
    }
}
