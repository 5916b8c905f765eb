//! Copies of a callee's instructions.
ghost use Rattle.std.specs.Prelude.{◌≡◌, ◌++◌, map, IfOk};
ghost use Rattle.ir_core.specs.Lists.{Each};
ghost use Rattle.ir_semantics.specs.Renaming.{instruction_under, tag_under};
ghost use Rattle.ir_core.specs.Uses.{slots_shown};
ghost use Rattle.ir_core.specs.Viewed.{instruction_of, line_of};
ghost use Rattle.inline_body.specs.Named.{names_of, Moves, Reached};

use crate::branches::{copy_br_table, copy_brif, copy_try_call, copy_try_call_indirect};
use crate::names::Names;
use debug_tags::Tags;
use ir_core::{Inst, InstData};
use std::alloc::{AllocError, Global};

/// The instruction under its numbers.
pub fn copy_inst(alloc: Global, names: &Names, added: &InstData) -> Result<Inst, AllocError>
    requires { Reached names.now (line_of added.now) }
    ensures { IfOk result
        (λ i. instruction_of i ≡ instruction_under (names_of names.now) (instruction_of added.now.inst)) }
{
    match &added.inst {
        Inst::Nop => Ok(Inst::Nop),
        Inst::SequencePoint => Ok(Inst::SequencePoint),
        Inst::Const(bits) => Ok(Inst::Const(*bits)),
        Inst::Pure { op, args } => Ok(Inst::Pure {
            op: *op,
            args: names.of_values(alloc, args)?,
        }),
        Inst::PureImm { op, arg, imm } => Ok(Inst::PureImm {
            op: *op,
            arg: names.value(*arg),
            imm: *imm,
        }),
        Inst::Load {
            access,
            flags,
            address,
            offset,
        } => Ok(Inst::Load {
            access: *access,
            flags: *flags,
            address: names.value(*address),
            offset: *offset,
        }),
        Inst::Store {
            narrow,
            flags,
            value,
            address,
            offset,
        } => Ok(Inst::Store {
            narrow: *narrow,
            flags: *flags,
            value: names.value(*value),
            address: names.value(*address),
            offset: *offset,
        }),
        Inst::StackLoad { ty, slot, offset } => Ok(Inst::StackLoad {
            ty: *ty,
            slot: names.slot(*slot),
            offset: *offset,
        }),
        Inst::StackStore {
            value,
            slot,
            offset,
        } => Ok(Inst::StackStore {
            value: names.value(*value),
            slot: names.slot(*slot),
            offset: *offset,
        }),
        Inst::FuncAddr(callee) => Ok(Inst::FuncAddr(names.callee(*callee))),
        Inst::Jump(target) => Ok(Inst::Jump(names.target(alloc, target)?)),
        Inst::Brif { cond, yes, no } => copy_brif(alloc, names, *cond, yes, no),
        Inst::BrTable {
            index,
            default,
            entries,
        } => copy_br_table(alloc, names, *index, default, entries),
        Inst::Return(values) => Ok(Inst::Return(names.of_values(alloc, values)?)),
        Inst::Trap(code) => Ok(Inst::Trap(*code)),
        Inst::Trapz { cond, code } => Ok(Inst::Trapz {
            cond: names.value(*cond),
            code: *code,
        }),
        Inst::Trapnz { cond, code } => Ok(Inst::Trapnz {
            cond: names.value(*cond),
            code: *code,
        }),
        Inst::Call { callee, args } => Ok(Inst::Call {
            callee: names.callee(*callee),
            args: names.of_values(alloc, args)?,
        }),
        Inst::ReturnCall { callee, args } => Ok(Inst::ReturnCall {
            callee: names.callee(*callee),
            args: names.of_values(alloc, args)?,
        }),
        Inst::TryCall {
            callee,
            sig,
            args,
            normal,
            table,
        } => copy_try_call(alloc, names, *callee, *sig, args, normal, table),
        Inst::CallIndirect { sig, address, args } => Ok(Inst::CallIndirect {
            sig: names.sig(*sig),
            address: names.value(*address),
            args: names.of_values(alloc, args)?,
        }),
        Inst::ReturnCallIndirect { sig, address, args } => Ok(Inst::ReturnCallIndirect {
            sig: names.sig(*sig),
            address: names.value(*address),
            args: names.of_values(alloc, args)?,
        }),
        Inst::TryCallIndirect {
            sig,
            address,
            args,
            normal,
            table,
        } => copy_try_call_indirect(alloc, names, *sig, *address, args, normal, table),
    }
}

/// The tags of an instruction of the callee, behind those of the site.
pub fn copy_tags(
    alloc: Global,
    names: &Names,
    outer: &Tags,
    inner: &Tags,
) -> Result<Tags, AllocError>
    requires { Each (Moves names.now.slots) (slots_shown inner.now) }
    ensures { IfOk result (λ t. t ≡ outer.now ++ map (tag_under (names_of names.now)) inner.now) }
{
    if outer.list().is_empty() && inner.list().is_empty() {
        return Ok(Tags::new(Vec::new(alloc)));
    }
    let mut list = Vec::from_slice(alloc, outer.list())?;
    names.push_tags(&mut list, inner.list())?;
    Ok(Tags::new(list))
}
