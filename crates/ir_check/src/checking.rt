//! The check of a module.
ghost use Rattle.std.specs.Prelude.{◌≡◌, MatchOption, IfErr, IfOk};
ghost use Rattle.ir_semantics.specs.Accepted.{Accepted};
ghost use Rattle.ir_check.specs.Faults.{checks};
ghost use Rattle.ir_check.specs.Found.{FindsAny};
ghost use Rattle.ir_check.specs.Refusal.{IsRefusal};

use crate::checked::Checked;
use crate::early::find_early_fault;
use crate::faults::Fault;
use crate::kinds::CheckKind;
use crate::late::find_late_fault;
use ir_core::{Item, Module};
use sig_numbers::number_sigs;
use std::alloc::{AllocError, Global};
use std::error::Error;
use std::fmt;

/// Why a module is not accepted.
#[derive(Clone, Copy, Debug, PartialEq, Eq)]
pub enum CheckErr {
    /// The first rule that is not kept. `func` is the place of the function, `item` the part of it.
    Fault {
        kind: CheckKind,
        func: usize,
        item: Item,
    },
    /// Memory ran out.
    NoMemory,
}

impl fmt::Display for CheckErr {
    fn fmt<W: fmt::Write>(&self, f: &mut fmt::Formatter<W>) -> fmt::Result {
        match self {
            CheckErr::Fault { kind, func, item } => {
                write!(f, "{kind:?} in the function at {func}, {item:?}")
            }
            CheckErr::NoMemory => write!(f, "out of memory"),
        }
    }
}

impl Error for CheckErr {}

/// A module that is not accepted, or not known to be.
#[derive(Drop)]
pub struct Rejected {
    pub module: Module,
    pub err: CheckErr,
}

impl fmt::Debug for Rejected {
    fn fmt<W: fmt::Write>(&self, f: &mut fmt::Formatter<W>) -> fmt::Result {
        f.debug_struct("Rejected")
            .field("err", &self.err)
            .finish_non_exhaustive()
    }
}

impl fmt::Display for Rejected {
    fn fmt<W: fmt::Write>(&self, f: &mut fmt::Formatter<W>) -> fmt::Result {
        write!(f, "{}", self.err)
    }
}

impl Error for Rejected {}

/// The first fault of a module. Availability is looked at after all other rules. Only `AllocError` refuses.
fn find_fault(alloc: Global, module: &Module) -> Result<Option<Fault>, AllocError>
    ensures { IfOk result (λ found. FindsAny «module».now (checks «module».now) found) }
{
    let sigs = number_sigs(alloc, module)?;
    if let Some(fault) = find_early_fault(module, &sigs) {
        return Ok(Some(fault));
    }
    find_late_fault(alloc, module)
}

/// Why a module is not accepted, if it is not.
fn find_err(alloc: Global, module: &Module) -> Option<CheckErr>
    ensures { MatchOption result (Accepted «module».now) (λ err. IsRefusal «module».now err) }
{
    match find_fault(alloc, module) {
        Ok(None) => None,
        Ok(Some(fault)) => Some(CheckErr::Fault {
            kind: fault.kind,
            func: fault.func,
            item: fault.item,
        }),
        Err(_) => Some(CheckErr::NoMemory),
    }
}

/// Checks a module. Accepted or not, it is handed back. The signatures are numbered once, in memory linear in them, and
/// compared by their numbers. So all rules but availability take time linear in the module, times the logarithm of the
/// number of signatures for each signature. Availability takes time linear in a function, and no memory, where the
/// numbers of its values show it. Elsewhere it takes a logarithm of the number of blocks for each use, and for each
/// function a few sweeps over its edges (more only for paths that are made to need them) and memory proportional to the
/// function.
pub fn check(alloc: Global, module: Module) -> Result<Checked, Rejected>
    ensures accepted { IfOk result (λ checked. (checked ≡ «module») × Accepted «module») }
    ensures same { IfErr result (λ rejected. rejected.«module» ≡ «module») }
    ensures fault { IfErr result (λ rejected. IsRefusal «module» rejected.err) }
{
    match find_err(alloc, &module) {
        None => Ok(Checked::of_accepted(module)),
        Some(err) => Err(Rejected { module, err }),
    }
}
