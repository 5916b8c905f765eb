//! Copies of functions.
ghost use Rattle.std.specs.Prelude.{◌≡◌, IfOk};

use super::{BlockData, Func};
use std::alloc::AllocError;

impl Clone for BlockData {
    ghost use Rattle.ir_core.specs.Alike.{Alike};

    ghost is_clone = { λ entry copy. Alike entry copy };

    fn clone(&self) -> Result<BlockData, AllocError> {
        Ok(BlockData {
            params: self.params.clone()?,
            start: self.start,
            len: self.len,
            cap: self.cap,
            next: self.next,
        })
    }
}

impl Func {
    /// An equal function. Only `AllocError` refuses.
    pub fn copy(&self) -> Result<Func, AllocError>
        ensures { IfOk result (λ func. func.function ≡ self.now.function) }
    {
        let alloc = self.alloc;
        Ok(Func {
            name: self.name.clone()?,
            sig: self.sig.clone()?,
            slots: Vec::from_slice(alloc, self.slots.as_slice())?,
            sigs: Vec::from_clones(alloc, self.sigs.as_slice())?,
            callees: Vec::from_clones(alloc, self.callees.as_slice())?,
            types: Vec::from_slice(alloc, self.types.as_slice())?,
            insts: Vec::from_clones(alloc, self.insts.as_slice())?,
            blocks: Vec::from_clones(alloc, self.blocks.as_slice())?,
            first: self.first,
            last: self.last,
            defined: self.defined,
            alloc,
        })
    }
}
