//! Lines of a callee's body at a `try_call`.
ghost use Rattle.std.specs.Prelude.{◌≡◌, ◌+◌, ◌<◌, ◌^◌, ◌++◌, [], length, map, IfOk, OnOk};
ghost use Rattle.ir_core.specs.declared.instructions.Arg.TheVariants as arg;
ghost use Rattle.ir_core.specs.Lists.{Each};
ghost use Rattle.ir_core.specs.Uses.{slots_shown, targets_used, table_targets};
ghost use Rattle.ir_core.specs.Lists.{Below};
ghost use Rattle.ir_core.specs.Module.{Direct, Indirect};
ghost use Rattle.ir_core.specs.Viewed.{instruction_of, line_of};
ghost use Rattle.ir_semantics.specs.Renaming.{entry_under};
ghost use Rattle.ir_semantics.specs.Splice.{from};
ghost use Rattle.inline_body.specs.Named.{names_of, Moves, Reached, blocks_of};
ghost use Rattle.inline_ends.specs.Tried.{is_plain_call as spec_is_plain_call, returned_arg, return_line, sig_called};
ghost use Rattle.inline_ends.specs.Tried.{to_next, try_of, try_line, tried_line as spec_tried_line};
ghost use Rattle.inline_ends.specs.TryCallSite.{IsTryCall};
ghost use Rattle.inline_ends.specs.TriedParts.{Called};

use debug_tags::Tags;
use exn_tables::Table;
use inline_body::{Names, copy_line, line_with};
use ir_core::{
    Arg, Block, BlockCall, Boxed, Callee, Few, FuncRef, Inst, InstData, SigRef, Value, Values,
};
use std::alloc::{AllocError, Global};
use std::marker::Model;

/// A `try_call` as a site. Contracts see its tags, normal target and table, and the callee declarations that its
/// function has then: its own, and those that it takes over.
#[derive(Drop)]
pub struct TrySite<'a> {
    pub tags: &'a Tags,
    pub normal: &'a BlockCall,
    pub table: &'a Table<BlockCall>,
    pub own: &'a [Callee],
    pub added: &'a [Callee],
}

impl<'a> Model for TrySite<'a> {
    ghost use Rattle.inline_ends.specs.Tried.{OuterTry};
    ghost use Rattle.inline_ends.specs.TriedParts.{outer_try};

    ghost Value = { OuterTry };

    ghost view = { outer_try };
}

impl<'a> TrySite<'a> {
    /// The signature of a callee declaration.
    fn sig_of(&self, callee: FuncRef) -> SigRef
        requires { callee < length self.now.callees }
        ensures { result ≡ sig_called self.now.callees (Direct callee) }
    {
        let place = callee.number() as usize;
        if place < self.own.len() {
            self.own[place].sig
        } else {
            self.added[place - self.own.len()].sig
        }
    }
}

/// Whether the instruction is a plain call.
pub fn is_plain_call(inst: &Inst) -> bool
    ensures { result ≡ spec_is_plain_call (instruction_of inst.now) }
{
    match inst {
        Inst::Call { .. } => true,
        Inst::CallIndirect { .. } => true,
        _ => false,
    }
}

/// An argument of the normal target, where the callee returns the values.
fn arg_returned(arg: Arg, values: &[Value]) -> Arg
    ensures { result ≡ returned_arg values.now arg }
{
    match arg {
        Arg::Value(value) => Arg::Value(value),
        Arg::Ret(index) => match values.get(index as usize) {
            Some(value) => Arg::Value(*value),
            None => Arg::Ret(index),
        },
        Arg::Exn(index) => Arg::Exn(index),
    }
}

/// The arguments of the normal target, where the callee returns the values.
fn returned_args(alloc: Global, args: &[Arg], values: &[Value]) -> Result<Few<Arg>, AllocError>
    ensures { IfOk result (λ list. list ≡ map (returned_arg values.now) args.now) }
{
    match args {
        [arg] => Ok(Few::one(arg_returned(*arg, values))),
        _ => many_returned_args(alloc, args, values),
    }
}

/// The arguments of the normal target, however many, where the callee returns the values.
fn many_returned_args(alloc: Global, args: &[Arg], values: &[Value]) -> Result<Few<Arg>, AllocError>
    ensures { IfOk result (λ list. list ≡ map (returned_arg values.now) args.now) }
{
    let mut list = Vec::new(alloc);
    for arg in args {
        list.push(arg_returned(*arg, values))?;
    }
    Ok(Few::from_vec(list))
}

/// The jump to the normal target in place of a return of the values.
fn jump_to_normal(
    alloc: Global,
    normal: &BlockCall,
    values: &[Value],
) -> Result<InstData, AllocError>
    ensures { IfOk result (λ l. line_of l ≡ return_line normal.now values.now) }
{
    Ok(InstData {
        inst: Inst::Jump(BlockCall {
            block: normal.block,
            args: returned_args(alloc, normal.args.as_slice(), values)?,
        }),
        ty: None,
        results: Values::none(),
        tags: Tags::new(Vec::new(alloc)),
    })
}

/// The first results of a call as arguments of its normal target.
fn result_args(alloc: Global, count: u32) -> Result<Few<Arg>, AllocError>
    ensures { IfOk result (λ list. list ≡ map arg.Ret (from 0 count)) }
{
    let mut list = Vec::new(alloc);
    for index in 0..count {
        list.push(Arg::Ret(index))?;
    }
    Ok(Few::from_vec(list))
}

/// The block in which a line's block goes on, with the line's results.
fn next_target(alloc: Global, next: Block, line: &InstData) -> Result<BlockCall, AllocError>
    requires { length line.now.results < 2 ^ 32 }
    ensures { IfOk result (λ t. t ≡ to_next next (line_of line.now)) }
{
    Ok(BlockCall {
        block: next,
        args: result_args(alloc, line.results.as_slice().len() as u32)?,
    })
}

/// A callee's table under its numbers, and behind it the site's.
fn joined_table(
    alloc: Global,
    names: &Names,
    inner: &Table<BlockCall>,
    outer: &Table<BlockCall>,
) -> Result<Boxed<Table<BlockCall>>, AllocError>
    requires values { Each (Moves names.now.values) (targets_used (table_targets inner.now)) }
    requires blocks { Below (length names.now.blocks) (blocks_of (table_targets inner.now)) }
    ensures { IfOk result (λ t. t ≡ map (entry_under (names_of names.now)) inner.now ++ outer.now) }
{
    let mut entries = names.entries(alloc, inner.entries())?;
    entries.extend_with_clones(outer.entries())?;
    Boxed::new(alloc, Table::new(entries))
}

/// A `try_call` with the site's table in place of a direct call.
fn try_direct(
    alloc: Global,
    names: &Names,
    site: &TrySite,
    line: &InstData,
    callee: FuncRef,
    args: &Values,
    normal: BlockCall,
) -> Result<InstData, AllocError>
    requires shown { Each (Moves names.now.slots) (slots_shown line.now.tags) }
    requires callee { callee < length names.now.callees }
    requires called { Called names.now site.now }
    requires args { Each (Moves names.now.values) args.now }
    ensures { IfOk result (λ l. line_of l
        ≡ try_line names.now site.now (line_of line.now) (try_of names.now site.now (Direct callee) args.now normal)) }
{
    let callee = names.callee(callee);
    let inst = Inst::TryCall {
        callee,
        sig: site.sig_of(callee),
        args: names.of_values(alloc, args)?,
        normal: Boxed::new(alloc, normal)?,
        table: Boxed::new(alloc, site.table.clone()?)?,
    };
    line_with(alloc, names, site.tags, line, inst, Values::none())
}

/// A `try_call` with the site's table in place of an indirect call.
fn try_indirect(
    alloc: Global,
    names: &Names,
    site: &TrySite,
    line: &InstData,
    sig: SigRef,
    address: Value,
    args: &Values,
    normal: BlockCall,
) -> Result<InstData, AllocError>
    requires shown { Each (Moves names.now.slots) (slots_shown line.now.tags) }
    requires sig { sig < length names.now.sigs }
    requires address { Moves names.now.values address }
    requires args { Each (Moves names.now.values) args.now }
    ensures { IfOk result (λ l. line_of l
        ≡ try_line names.now site.now (line_of line.now)
        (try_of names.now site.now (Indirect sig address) args.now normal)) }
{
    let inst = Inst::TryCallIndirect {
        sig: names.sig(sig),
        address: names.value(address),
        args: names.of_values(alloc, args)?,
        normal: Boxed::new(alloc, normal)?,
        table: Boxed::new(alloc, site.table.clone()?)?,
    };
    line_with(alloc, names, site.tags, line, inst, Values::none())
}

/// A `try_call` of the callee, with the site's table behind its own.
fn join_table(
    alloc: Global,
    names: &Names,
    site: &TrySite,
    line: &InstData,
) -> Result<InstData, AllocError>
    requires reached { Reached names.now (line_of line.now) }
    requires tries { IsTryCall (instruction_of line.now.inst) }
    ensures { IfOk result (λ l. line_of l
        ≡ spec_tried_line names.now site.now 0 (line_of line.now) (instruction_of line.now.inst)) }
{
    let inst = match &line.inst {
        Inst::TryCall {
            callee,
            sig,
            args,
            normal,
            table,
        } => Inst::TryCall {
            callee: names.callee(*callee),
            sig: names.sig(*sig),
            args: names.of_values(alloc, args)?,
            normal: names.boxed(alloc, normal)?,
            table: joined_table(alloc, names, table.get(), site.table)?,
        },
        Inst::TryCallIndirect {
            sig,
            address,
            args,
            normal,
            table,
        } => Inst::TryCallIndirect {
            sig: names.sig(*sig),
            address: names.value(*address),
            args: names.of_values(alloc, args)?,
            normal: names.boxed(alloc, normal)?,
            table: joined_table(alloc, names, table.get(), site.table)?,
        },
        _ => unreachable!(),
    };
    line_with(alloc, names, site.tags, line, inst, Values::none())
}

/// The jump to the normal target in place of a return.
fn tried_return(
    alloc: Global,
    names: &Names,
    normal: &BlockCall,
    values: &Values,
) -> Result<InstData, AllocError>
    requires { Each (Moves names.now.values) values.now }
    ensures { IfOk result (λ l. line_of l ≡ return_line normal.now (map (names_of names.now).value values.now)) }
{
    let values = names.of_values(alloc, values)?;
    jump_to_normal(alloc, normal, values.as_slice())
}

/// A line in its block; a plain call goes on in the block `next`.
pub fn tried_line(
    alloc: Global,
    names: &Names,
    site: &TrySite,
    next: Block,
    line: &InstData,
) -> Result<InstData, AllocError>
    requires reached { Reached names.now (line_of line.now) }
    requires called { Called names.now site.now }
    requires few { length line.now.results < 2 ^ 32 }
    ensures { IfOk result (λ l. line_of l
        ≡ spec_tried_line names.now site.now next (line_of line.now) (instruction_of line.now.inst)) }
{
    match &line.inst {
        Inst::Return(values) => tried_return(alloc, names, site.normal, values),
        Inst::Call { callee, args } => {
            let normal = next_target(alloc, next, line)?;
            try_direct(alloc, names, site, line, *callee, args, normal)
        }
        Inst::CallIndirect { sig, address, args } => {
            let normal = next_target(alloc, next, line)?;
            try_indirect(alloc, names, site, line, *sig, *address, args, normal)
        }
        Inst::ReturnCall { callee, args } => {
            let normal = site.normal.clone()?;
            try_direct(alloc, names, site, line, *callee, args, normal)
        }
        Inst::ReturnCallIndirect { sig, address, args } => {
            let normal = site.normal.clone()?;
            try_indirect(alloc, names, site, line, *sig, *address, args, normal)
        }
        Inst::TryCall { .. } => join_table(alloc, names, site, line),
        Inst::TryCallIndirect { .. } => join_table(alloc, names, site, line),
        _ => copy_line(alloc, names, site.tags, line),
    }
}
