//! A function whose calls are replaced one after the other.
ghost use Rattle.std.specs.Prelude.{◌≡◌, ◌+◌, ◌-◌, ◌<◌, ◌^◌, length, IfOk, OnOk, OnErr};
ghost use Rattle.body_import.specs.Imports.{IsImportOf};
ghost use Rattle.inline_body.specs.PlainCall.{IsSplice};
ghost use Rattle.inline_caller.specs.Replacing.{CanReplace};

use crate::prepared::{blocks_added, prepare_planned};
use crate::putting::put_prepared;
use body_import::{Import, Index, extend_index, index_declarations, plan_import};
use ir_core::{Func, Point};
use std::alloc::{AllocError, Global};
use std::marker::Model;
use std::sync::ledger::Ledger;
use step_counter::Steps;

/// A function whose calls are replaced one after the other. Contracts see it as the function. It keeps an index of the
/// function's declarations and its number of blocks, so that no splice goes over the whole function.
#[derive(Drop)]
pub struct Caller {
    func: Func,
    block_count: u32,
    index: Index,
    /// Whether the index is the function's: not so once memory was out in the middle of a splice.
    indexed: bool,
}

impl Model for Caller {
    ghost use Rattle.ir_core.specs.Module.{Function};
    ghost use Rattle.inline_caller.specs.Standing.{function_of, IsCaller};

    ghost Value = { Function };

    ghost view = { function_of };

    ghost invariant = { IsCaller };
}

impl Caller {
    /// A caller with a copy of the function.
    pub fn new(alloc: Global, func: &Func) -> Result<Caller, AllocError>
        ensures { IfOk result (λ c. c ≡ func.now.function) }
    {
        let _ = func.values();
        let block_count = func.block_count() as u32;
        let index = index_declarations(alloc, func)?;
        Ok(Caller {
            func: func.copy()?,
            block_count,
            index,
            indexed: true,
        })
    }

    /// The function.
    pub fn func(&self) -> &Func
        ensures { result.now.function ≡ self.now }
    {
        &self.func
    }

    /// The function, when all is replaced.
    pub fn into_func(self) -> Func
        ensures { result.function ≡ self }
    {
        self.func
    }

    /// The number of blocks. At a plain call that is replaced, the block behind the body has the number after this one.
    pub fn block_count(&self) -> u32
        ensures { result ≡ length self.now.blocks }
    {
        self.block_count
    }

    /// What the caller takes over from a callee. Only `AllocError` refuses. Time is the length of the callee's
    /// declarations, times the logarithm of the number of the caller's.
    pub fn plan(&self, alloc: Global, callee: &Func) -> Result<Import, AllocError>
        requires few_sigs { length self.now.sigs + length callee.now.function.sigs < 2 ^ 32 - 1 }
        requires few_callees { length self.now.callees + length callee.now.function.callees < 2 ^ 32 - 1 }
        ensures { IfOk result (λ i. IsImportOf self.now callee.now.function i) }
    {
        if !self.indexed {
            return Err(AllocError);
        }
        plan_import(alloc, &self.index, &self.func, callee)
    }

    /// Replaces the call at the place by the callee's body, and counts a step. After `AllocError` the function is as
    /// before, no step was counted, and `plan` and `splice` answer `AllocError` from then on. Time is the size of what
    /// is put in, times the logarithm of the number of the caller's declarations.
    pub fn splice<L: Ledger>(
        &mut self,
        alloc: Global,
        site: Point,
        callee: &Func,
        import: Import,
        steps: &mut Steps<L>,
    ) -> Result<(), AllocError>
        requires imported { IsImportOf self.old callee.now.function import }
        requires can { CanReplace self.old callee.now.function site }
        ensures ok { OnOk result (IsSplice self.old callee.now.function site self.new) }
        ensures err { OnErr result (self.new ≡ self.old) }
        ensures counted { OnOk result (steps.new ≡ steps.old + 1) }
        ensures uncounted { OnErr result (steps.new ≡ steps.old) }
    {
        if !self.indexed {
            return Err(AllocError);
        }
        let _ = self.func.values();
        self.indexed = false;
        extend_index(
            alloc,
            &mut self.index,
            &self.func,
            import.sigs.added.as_slice(),
            import.callees.added.as_slice(),
        )?;
        let call = prepare_planned(
            alloc,
            &mut self.func,
            self.block_count,
            import,
            site,
            callee,
        )?;
        self.block_count += blocks_added(&call);
        put_prepared(&mut self.func, call, steps);
        self.indexed = true;
        Ok(())
    }
}
