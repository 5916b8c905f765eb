//! Copies of instructions.
ghost use Rattle.std.specs.Prelude.{◌≡◌, IfOk};
ghost use Rattle.ir_core.specs.declared.instructions.Inst.TheVariants.{Brif, BrTable, TryCall, TryCallIndirect};

use crate::instructions::{BlockCall, Inst, InstData};
use crate::numbers::{FuncRef, SigRef, Value};
use crate::values::Values;
use containers::{Boxed, List};
use exn_tables::Table;
use std::alloc::AllocError;

impl Clone for BlockCall {
    ghost is_clone = { λ target copy. copy ≡ target };

    fn clone(&self) -> Result<BlockCall, AllocError> {
        Ok(BlockCall {
            block: self.block,
            args: self.args.clone()?,
        })
    }
}

impl Clone for InstData {
    ghost is_clone = { λ added copy. copy ≡ added };

    fn clone(&self) -> Result<InstData, AllocError> {
        let results = self.results.clone()?;
        let tags = self.tags.clone()?;
        Ok(InstData {
            inst: self.inst.clone()?,
            ty: self.ty,
            results,
            tags,
        })
    }
}

fn clone_brif(
    cond: Value,
    yes: &Boxed<BlockCall>,
    no: &Boxed<BlockCall>,
) -> Result<Inst, AllocError>
    ensures { IfOk result (λ copy. copy ≡ Brif cond yes.now no.now) }
{
    Ok(Inst::Brif {
        cond,
        yes: yes.clone()?,
        no: no.clone()?,
    })
}

fn clone_br_table(
    index: Value,
    default: &Boxed<BlockCall>,
    entries: &List<BlockCall>,
) -> Result<Inst, AllocError>
    ensures { IfOk result (λ copy. copy ≡ BrTable index default.now entries.now) }
{
    Ok(Inst::BrTable {
        index,
        default: default.clone()?,
        entries: entries.clone()?,
    })
}

fn clone_try_call(
    callee: FuncRef,
    sig: SigRef,
    args: &Values,
    normal: &Boxed<BlockCall>,
    table: &Boxed<Table<BlockCall>>,
) -> Result<Inst, AllocError>
    ensures { IfOk result (λ copy. copy ≡ TryCall callee sig args.now normal.now table.now) }
{
    Ok(Inst::TryCall {
        callee,
        sig,
        args: args.clone()?,
        normal: normal.clone()?,
        table: table.clone()?,
    })
}

fn clone_try_call_indirect(
    sig: SigRef,
    address: Value,
    args: &Values,
    normal: &Boxed<BlockCall>,
    table: &Boxed<Table<BlockCall>>,
) -> Result<Inst, AllocError>
    ensures { IfOk result (λ copy. copy ≡ TryCallIndirect sig address args.now normal.now table.now) }
{
    Ok(Inst::TryCallIndirect {
        sig,
        address,
        args: args.clone()?,
        normal: normal.clone()?,
        table: table.clone()?,
    })
}

impl Clone for Inst {
    ghost is_clone = { λ inst copy. copy ≡ inst };

    fn clone(&self) -> Result<Inst, AllocError> {
        match self {
            Inst::Nop => Ok(Inst::Nop),
            Inst::SequencePoint => Ok(Inst::SequencePoint),
            Inst::Const(bits) => Ok(Inst::Const(*bits)),
            Inst::Pure { op, args } => Ok(Inst::Pure {
                op: *op,
                args: args.clone()?,
            }),
            Inst::PureImm { op, arg, imm } => Ok(Inst::PureImm {
                op: *op,
                arg: *arg,
                imm: *imm,
            }),
            Inst::Load {
                access,
                flags,
                address,
                offset,
            } => Ok(Inst::Load {
                access: *access,
                flags: *flags,
                address: *address,
                offset: *offset,
            }),
            Inst::Store {
                narrow,
                flags,
                value,
                address,
                offset,
            } => Ok(Inst::Store {
                narrow: *narrow,
                flags: *flags,
                value: *value,
                address: *address,
                offset: *offset,
            }),
            Inst::StackLoad { ty, slot, offset } => Ok(Inst::StackLoad {
                ty: *ty,
                slot: *slot,
                offset: *offset,
            }),
            Inst::StackStore {
                value,
                slot,
                offset,
            } => Ok(Inst::StackStore {
                value: *value,
                slot: *slot,
                offset: *offset,
            }),
            Inst::FuncAddr(callee) => Ok(Inst::FuncAddr(*callee)),
            Inst::Jump(target) => Ok(Inst::Jump(target.clone()?)),
            Inst::Brif { cond, yes, no } => clone_brif(*cond, yes, no),
            Inst::BrTable {
                index,
                default,
                entries,
            } => clone_br_table(*index, default, entries),
            Inst::Return(values) => Ok(Inst::Return(values.clone()?)),
            Inst::Trap(code) => Ok(Inst::Trap(*code)),
            Inst::Trapz { cond, code } => Ok(Inst::Trapz {
                cond: *cond,
                code: *code,
            }),
            Inst::Trapnz { cond, code } => Ok(Inst::Trapnz {
                cond: *cond,
                code: *code,
            }),
            Inst::Call { callee, args } => Ok(Inst::Call {
                callee: *callee,
                args: args.clone()?,
            }),
            Inst::ReturnCall { callee, args } => Ok(Inst::ReturnCall {
                callee: *callee,
                args: args.clone()?,
            }),
            Inst::TryCall {
                callee,
                sig,
                args,
                normal,
                table,
            } => clone_try_call(*callee, *sig, args, normal, table),
            Inst::CallIndirect { sig, address, args } => Ok(Inst::CallIndirect {
                sig: *sig,
                address: *address,
                args: args.clone()?,
            }),
            Inst::ReturnCallIndirect { sig, address, args } => Ok(Inst::ReturnCallIndirect {
                sig: *sig,
                address: *address,
                args: args.clone()?,
            }),
            Inst::TryCallIndirect {
                sig,
                address,
                args,
                normal,
                table,
            } => clone_try_call_indirect(*sig, *address, args, normal, table),
        }
    }
}
