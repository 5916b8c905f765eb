//! What comes into a caller by an import.
ghost use Rattle.std.specs.Prelude.{◌≡◌};
ghost use Rattle.inline_body.specs.Named.{names_in};

use crate::names::Names;
use body_import::Import;
use ir_core::{Block, Callee, Func, List, Sig};

/// The numbers that a callee's parts get in a caller, and the declarations that come in with them.
#[derive(Drop)]
pub struct Incoming {
    pub names: Names,
    pub sigs: List<Sig>,
    pub callees: List<Callee>,
}

impl Incoming {
    /// What comes into a caller by an import, where the callee's blocks get these numbers.
    pub fn of_import(caller: &Func, blocks: List<Block>, import: Import) -> Incoming
        ensures names { result.names ≡ names_in caller.now.function blocks import }
        ensures sigs { result.sigs ≡ import.sigs.added }
        ensures callees { result.callees ≡ import.callees.added }
    {
        let Import { sigs, callees } = import;
        let names = Names {
            values: caller.values() as u32,
            slots: caller.slots().len() as u32,
            blocks,
            sig_count: caller.sigs().len() + sigs.added.as_slice().len(),
            callee_count: caller.callees().len() + callees.added.as_slice().len(),
            sigs: sigs.table,
            callees: callees.table,
        };
        Incoming {
            names,
            sigs: sigs.added,
            callees: callees.added,
        }
    }
}
