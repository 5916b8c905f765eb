//! The numbers that a callee's parts get in the caller.
ghost use Rattle.std.specs.Prelude.{◌≡◌, ◌+◌, ◌<◌, ◌^◌, ◌∷◌, [], ◌++◌, length, map, IfOk, OnOk};
ghost use Rattle.ir_core.specs.Lists.{Each};
ghost use Rattle.ir_semantics.specs.Renaming.{arg_under, target_under, entry_under, tag_under};
ghost use Rattle.ir_core.specs.Uses.{arg_values_used, targets_used, table_targets, slots_shown};
ghost use Rattle.ir_core.specs.Lists.{Below};
ghost use Rattle.inline_body.specs.Named.{names_of, Moves, blocks_of};

use debug_tags::Tag;
use exn_tables::{Entry, Table};
use ir_core::{Arg, Block, BlockCall, Boxed, Few, FuncRef, List, SigRef, Slot, Value, Values};
use std::alloc::{AllocError, Global};

/// The numbers that a callee's parts get in the caller: values and slots those behind the caller's, and blocks,
/// signatures and callees those of a table. `sig_count` and `callee_count` are how many the caller has then.
#[derive(Drop)]
pub struct Names {
    pub values: u32,
    pub slots: u32,
    pub blocks: List<Block>,
    pub sigs: List<SigRef>,
    pub callees: List<FuncRef>,
    pub sig_count: usize,
    pub callee_count: usize,
}

impl Names {
    /// The number of a value.
    pub fn value(&self, value: Value) -> Value
        requires { self.now.values + value < 2 ^ 32 }
        ensures { result ≡ (names_of self.now).value value }
    {
        Value::new(self.values + value.number())
    }

    /// The numbers of some values.
    pub fn of_values(&self, alloc: Global, values: &Values) -> Result<Values, AllocError>
        requires { Each (Moves self.now.values) values.now }
        ensures { IfOk result (λ list. list ≡ map (names_of self.now).value values.now) }
    {
        Values::from_shifted(alloc, values.as_slice(), self.values)
    }

    /// The number of a slot.
    pub fn slot(&self, slot: Slot) -> Slot
        requires { self.now.slots + slot < 2 ^ 32 }
        ensures { result ≡ (names_of self.now).slot slot }
    {
        Slot::new(self.slots + slot.number())
    }

    /// The number of a block.
    pub fn block(&self, block: Block) -> Block
        requires { block < length self.now.blocks }
        ensures { result ≡ (names_of self.now).block block }
    {
        self.blocks.as_slice()[block.number() as usize]
    }

    /// The number of a signature.
    pub fn sig(&self, sig: SigRef) -> SigRef
        requires { sig < length self.now.sigs }
        ensures { result ≡ (names_of self.now).sig sig }
    {
        self.sigs.as_slice()[sig.number() as usize]
    }

    /// The number of a callee declaration.
    pub fn callee(&self, callee: FuncRef) -> FuncRef
        requires { callee < length self.now.callees }
        ensures { result ≡ (names_of self.now).callee callee }
    {
        self.callees.as_slice()[callee.number() as usize]
    }

    /// An argument of a target.
    fn arg(&self, arg: Arg) -> Arg
        requires { Each (Moves self.now.values) (arg_values_used (arg ∷ [])) }
        ensures { result ≡ arg_under (names_of self.now) arg }
    {
        match arg {
            Arg::Value(value) => Arg::Value(self.value(value)),
            Arg::Ret(index) => Arg::Ret(index),
            Arg::Exn(index) => Arg::Exn(index),
        }
    }

    /// Arguments of a target.
    fn args(&self, alloc: Global, args: &[Arg]) -> Result<Few<Arg>, AllocError>
        requires { Each (Moves self.now.values) (arg_values_used args.now) }
        ensures { IfOk result (λ list. list ≡ map (arg_under (names_of self.now)) args.now) }
    {
        match args {
            [arg] => Ok(Few::one(self.arg(*arg))),
            _ => self.many_args(alloc, args),
        }
    }

    /// Arguments of a target, of however many.
    fn many_args(&self, alloc: Global, args: &[Arg]) -> Result<Few<Arg>, AllocError>
        requires { Each (Moves self.now.values) (arg_values_used args.now) }
        ensures { IfOk result (λ list. list ≡ map (arg_under (names_of self.now)) args.now) }
    {
        let mut list = Vec::with_capacity(alloc, args.len())?;
        for arg in args {
            list.push(self.arg(*arg))?;
        }
        Ok(Few::from_vec(list))
    }

    /// A target.
    pub fn target(&self, alloc: Global, target: &BlockCall) -> Result<BlockCall, AllocError>
        requires values { Each (Moves self.now.values) (arg_values_used target.now.args) }
        requires block { target.now.block < length self.now.blocks }
        ensures { IfOk result (λ t. t ≡ target_under (names_of self.now) target.now) }
    {
        Ok(BlockCall {
            block: self.block(target.block),
            args: self.args(alloc, target.args.as_slice())?,
        })
    }

    /// A target behind a pointer.
    pub fn boxed(
        &self,
        alloc: Global,
        target: &Boxed<BlockCall>,
    ) -> Result<Boxed<BlockCall>, AllocError>
        requires values { Each (Moves self.now.values) (arg_values_used target.now.args) }
        requires block { target.now.block < length self.now.blocks }
        ensures { IfOk result (λ t. t ≡ target_under (names_of self.now) target.now) }
    {
        Boxed::new(alloc, self.target(alloc, target.get())?)
    }

    /// Targets.
    pub fn targets(
        &self,
        alloc: Global,
        targets: &[BlockCall],
    ) -> Result<List<BlockCall>, AllocError>
        requires values { Each (Moves self.now.values) (targets_used targets.now) }
        requires blocks { Below (length self.now.blocks) (blocks_of targets.now) }
        ensures { IfOk result (λ list. list ≡ map (target_under (names_of self.now)) targets.now) }
    {
        let mut list = Vec::with_capacity(alloc, targets.len())?;
        for target in targets {
            list.push(self.target(alloc, target)?)?;
        }
        Ok(List::from_vec(list))
    }

    /// Entries of an exception table.
    pub fn entries(
        &self,
        alloc: Global,
        entries: &[Entry<BlockCall>],
    ) -> Result<Vec<Entry<BlockCall>>, AllocError>
        requires values { Each (Moves self.now.values) (targets_used (table_targets entries.now)) }
        requires blocks { Below (length self.now.blocks) (blocks_of (table_targets entries.now)) }
        ensures { IfOk result (λ list. list.items ≡ map (entry_under (names_of self.now)) entries.now) }
    {
        let mut list = Vec::with_capacity(alloc, entries.len())?;
        for entry in entries {
            list.push(Entry {
                tag: entry.tag,
                target: self.target(alloc, &entry.target)?,
            })?;
        }
        Ok(list)
    }

    /// An exception table behind a pointer.
    pub fn table(
        &self,
        alloc: Global,
        table: &Boxed<Table<BlockCall>>,
    ) -> Result<Boxed<Table<BlockCall>>, AllocError>
        requires values { Each (Moves self.now.values) (targets_used (table_targets table.now)) }
        requires blocks { Below (length self.now.blocks) (blocks_of (table_targets table.now)) }
        ensures { IfOk result (λ t. t ≡ map (entry_under (names_of self.now)) table.now) }
    {
        let entries = self.entries(alloc, table.get().entries())?;
        Boxed::new(alloc, Table::new(entries))
    }

    /// A tag.
    fn tag(&self, tag: Tag) -> Tag
        requires { Each (Moves self.now.slots) (slots_shown (tag ∷ [])) }
        ensures { result ≡ tag_under (names_of self.now) tag }
    {
        match tag {
            Tag::User(number) => Tag::User(number),
            Tag::Slot(number) => Tag::Slot(self.slots + number),
        }
    }

    /// Appends tags to others.
    pub fn push_tags(&self, list: &mut Vec<Tag>, tags: &[Tag]) -> Result<(), AllocError>
        requires { Each (Moves self.now.slots) (slots_shown tags.now) }
        ensures { OnOk result (list.new.items ≡ list.old.items ++ map (tag_under (names_of self.now)) tags.now) }
    {
        for tag in tags {
            list.push(self.tag(*tag))?;
        }
        Ok(())
    }
}
