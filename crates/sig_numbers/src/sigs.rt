//! The signatures of a module and of its functions.
ghost use Rattle.std.specs.Prelude.{◌≡◌, ◌<◌, Some, length, slice_get, IfOk};
ghost use Rattle.ir_core.specs.declared.signatures.Sig.{Sig};
ghost use Rattle.ir_core.specs.Module.{Function};
ghost use Rattle.ir_core.specs.Signatures.{same_sig};
ghost use Rattle.sig_numbers.specs.Tables.{return_alike};

use crate::tables::{SigEntry, SigTable, find_own_entries, find_tables};
use ir_core::{Func, Module, SigRef};
use std::alloc::{AllocError, Global};
use std::marker::Model;

/// The signatures of a module's functions. Contracts see the module.
#[derive(Drop)]
pub struct ModuleSigs<'a> {
    module: &'a Module,
    tables: Vec<SigTable>,
}

impl<'a> Model for ModuleSigs<'a> {
    ghost use Rattle.std.specs.Prelude.{List};
    ghost use Rattle.ir_core.specs.Module.{Function};
    ghost use Rattle.sig_numbers.specs.Known.{module_of, KnowsModule};

    ghost Value = { List Function };

    ghost view = { module_of };

    ghost invariant = { KnowsModule };
}

/// The signatures of a function. Contracts see the function.
#[derive(Drop)]
pub struct FuncSigs<'a> {
    func: &'a Func,
    entries: &'a [SigEntry],
}

impl<'a> Model for FuncSigs<'a> {
    ghost use Rattle.ir_core.specs.Module.{Function};
    ghost use Rattle.sig_numbers.specs.Known.{function_of, KnowsFunction};

    ghost Value = { Function };

    ghost view = { function_of };

    ghost invariant = { KnowsFunction };
}

/// The signatures of one function, numbered alone. Contracts see the function.
#[derive(Drop)]
pub struct OwnSigs<'a> {
    func: &'a Func,
    entries: Vec<SigEntry>,
}

impl<'a> Model for OwnSigs<'a> {
    ghost use Rattle.ir_core.specs.Module.{Function};
    ghost use Rattle.sig_numbers.specs.Known.{owner_of, KnowsOwner};

    ghost Value = { Function };

    ghost view = { owner_of };

    ghost invariant = { KnowsOwner };
}

impl<'a> ModuleSigs<'a> {
    /// The signatures of the function at a place.
    pub fn func(&self, i: usize) -> FuncSigs<'_>
        requires { i < length self.now }
        ensures { slice_get self.now i ≡ Some result }
    {
        FuncSigs {
            func: self.module.func(i),
            entries: self.tables[i].entries.as_slice(),
        }
    }

    /// Whether a signature that the function at `i` declares is the own one of the function at `callee`. It takes one
    /// step.
    pub fn is_own(&self, i: usize, sig: SigRef, callee: usize) -> bool
        requires caller { i < length self.now }
        requires callee { callee < length self.now }
        requires there { (f : Function) → slice_get self.now i ≡ Some f → sig < length f.sigs }
        ensures { (f g : Function) (s : Sig) → slice_get self.now i ≡ Some f → slice_get self.now callee ≡ Some g
            → slice_get f.sigs sig ≡ Some s → result ≡ same_sig s g.sig }
    {
        let caller = &self.tables[i];
        caller.entries[sig.number() as usize].number == self.tables[callee].own
    }
}

impl<'a> FuncSigs<'a> {
    /// Whether two signatures that the function declares are the same. It takes one step.
    pub fn are_same(&self, a: SigRef, b: SigRef) -> bool
        requires first { a < length self.now.sigs }
        requires second { b < length self.now.sigs }
        ensures { (s t : Sig) → slice_get self.now.sigs a ≡ Some s → slice_get self.now.sigs b ≡ Some t
            → result ≡ same_sig s t }
    {
        self.entries[a.number() as usize].number == self.entries[b.number() as usize].number
    }

    /// Whether the results of a signature that the function declares have the types of the function's own. It takes one
    /// step.
    pub fn returns_alike(&self, sig: SigRef) -> bool
        requires { sig < length self.now.sigs }
        ensures { (s : Sig) → slice_get self.now.sigs sig ≡ Some s → result ≡ return_alike self.now.sig s }
    {
        self.entries[sig.number() as usize].returns_alike
    }
}

impl<'a> OwnSigs<'a> {
    /// Numbers the signatures that a function declares. It takes time linear in them, times the logarithm of their
    /// number. For a function that declares none it takes no memory, and for one that declares a single one that of its
    /// entry. Only `AllocError` refuses.
    pub fn of(alloc: Global, func: &'a Func) -> Result<OwnSigs<'a>, AllocError>
        ensures { IfOk result (λ sigs. sigs ≡ func.now.function) }
    {
        let entries = find_own_entries(alloc, func)?;
        Ok(OwnSigs { func, entries })
    }

    /// What is looked up of them.
    pub fn sigs(&self) -> FuncSigs<'_>
        ensures { result ≡ self.now }
    {
        FuncSigs {
            func: self.func,
            entries: self.entries.as_slice(),
        }
    }
}

/// Numbers the signatures of a module. It takes time linear in them, times the logarithm of their number, and memory
/// linear in them. Only `AllocError` refuses.
pub fn number_sigs<'a>(alloc: Global, module: &'a Module) -> Result<ModuleSigs<'a>, AllocError>
    ensures { IfOk result (λ sigs. sigs ≡ «module».now) }
{
    let tables = find_tables(alloc, module)?;
    Ok(ModuleSigs { module, tables })
}
