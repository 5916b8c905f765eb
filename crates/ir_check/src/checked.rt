//! Modules that are known to be accepted.
ghost use Rattle.std.specs.Prelude.{◌≡◌};
ghost use Rattle.ir_core.specs.WellFormed.{IsModule};
ghost use Rattle.ir_semantics.specs.Accepted.{Accepted};

use ir_core::Module;
use std::marker::Model;

/// A module that is accepted. Contracts see it as the module.
#[derive(Drop)]
pub struct Checked {
    module: Module,
}

impl Model for Checked {
    ghost use Rattle.std.specs.Prelude.{List};
    ghost use Rattle.ir_core.specs.Module.{Function};
    ghost use Rattle.ir_check.specs.Accepting.{IsChecked};

    ghost Value = { List Function };

    ghost view = { λ s. s.«module» };

    ghost invariant = { λ s. IsChecked s.«module» };
}

impl Checked {
    /// The module.
    pub fn module(&self) -> &Module
        ensures same { result.now ≡ self.now }
        ensures functions { IsModule result.now }
        ensures accepted { Accepted result.now }
    {
        &self.module
    }

    /// The module, out of which its functions may be taken.
    pub fn into_module(self) -> Module
        ensures same { result ≡ self }
        ensures accepted { Accepted result }
    {
        let Checked { module } = self;
        module
    }

    /// A module that is known to be accepted. It is not looked at.
    pub fn of_accepted(module: Module) -> Checked
        requires { Accepted «module» }
        ensures { result ≡ «module» }
    {
        // That its functions are whole and have different names, any call on it tells.
        let _count = module.len();
        Checked { module }
    }
}
