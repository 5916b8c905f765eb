//! What each instruction does.
ghost use Rattle.std.specs.Prelude.{◌≡◌, IfOk, IsTrue};
ghost use Rattle.ir_core.specs.Viewed.{line_of, instruction_of};
ghost use Rattle.ir_semantics.specs.Names.{names};
ghost use Rattle.ir_semantics.specs.Effect.{effect};
ghost use Rattle.byte_store.specs.Cells.{bytes_at};
ghost use Rattle.interp.specs.Lines.{line_fits};
ghost use Rattle.interp.specs.State.{function_at, env_of, world_of, moment, done, Linked};
ghost use Rattle.interp_run.specs.Addressing.{IsAddressed};

use crate::addresses::Addresses;
use crate::calls::{call_address, func_addr, tail_call_address};
use clk_num::Bits;
use interp::{
    End, Frame, Program, Stop, Wait, World, br_table, brif, call_callee, give_back, give_results,
    jump, load, pure_imm, pure_op, sequence_point, stack_load, stack_store, store,
    tail_call_callee, trapnz, trapz,
};
use ir_core::{Inst, InstData};
use std::alloc::{AllocError, Global};

/// Does what the instruction of a line says, where the frame on top is past the line.
pub fn act<'m>(
    alloc: Global,
    program: &Program<'m>,
    addresses: &Addresses<'m>,
    top: &mut Frame<'m>,
    below: &mut Vec<Wait<'m>>,
    world: &mut World<'m>,
    line: &'m InstData,
    values: &mut Vec<Bits>,
    xs: &mut Vec<Bits>,
) -> Result<Option<Stop>, AllocError>
    requires linked { Linked program.now }
    requires addressed { IsAddressed program.now.module.now addresses.now }
    requires fits { IsTrue (line_fits (line_of line.now)) }
    ensures { IfOk result (λ r. let m = program.now.module.now in
        moment m top.new below.new.items (world_of world.new) r
        ≡ done m top.old below.old.items (world_of world.old) line.now
        (effect (names m) (function_at m top.old.at) (env_of top.old.values) (bytes_at top.old.slots)
        (world_of world.old).memory (instruction_of line.now.inst))) }
{
    match &line.inst {
        Inst::Nop => give_results(top, line, &[]),
        Inst::SequencePoint => sequence_point(alloc, program, top, below.as_slice(), world, line),
        Inst::Const(bits) => give_results(top, line, &[*bits]),
        Inst::Pure { op, args } => pure_op(top, line, *op, args.as_slice(), xs),
        Inst::PureImm { op, arg, imm } => pure_imm(top, line, *op, *arg, *imm),
        Inst::Load {
            access,
            flags,
            address,
            offset,
        } => load(top, world, line, *access, *flags, *address, *offset),
        Inst::Store {
            narrow,
            flags,
            value,
            address,
            offset,
        } => {
            let moved = store(top, world, line, *narrow, *flags, *value, *address, *offset);
            Ok(moved)
        }
        Inst::StackLoad { ty, slot, offset } => stack_load(program, top, line, *ty, *slot, *offset),
        Inst::StackStore {
            value,
            slot,
            offset,
        } => stack_store(program, top, line, *value, *slot, *offset),
        Inst::FuncAddr(callee) => func_addr(program, addresses, top, line, *callee),
        Inst::Jump(target) => jump(program, top, line, target, xs),
        Inst::Brif { cond, yes, no } => brif(program, top, line, *cond, yes.get(), no.get(), xs),
        Inst::BrTable {
            index,
            default,
            entries,
        } => br_table(
            program,
            top,
            line,
            *index,
            default.get(),
            entries.as_slice(),
            xs,
        ),
        Inst::Return(args) => give_back(
            alloc,
            program,
            top,
            below,
            line,
            args.as_slice(),
            values,
            xs,
        ),
        Inst::Trap(code) => Ok(Some(Stop::At(End::Trapped(*code)))),
        Inst::Trapz { cond, code } => trapz(top, line, *cond, *code),
        Inst::Trapnz { cond, code } => trapnz(top, line, *cond, *code),
        Inst::Call { callee, args } | Inst::TryCall { callee, args, .. } => call_callee(
            alloc,
            program,
            top,
            below,
            world,
            line,
            *callee,
            args.as_slice(),
            values,
            xs,
        ),
        Inst::ReturnCall { callee, args } => tail_call_callee(
            alloc,
            program,
            top,
            below,
            world,
            line,
            *callee,
            args.as_slice(),
            values,
            xs,
        ),
        Inst::CallIndirect { sig, address, args }
        | Inst::TryCallIndirect {
            sig,
            address,
            args,
            ..
        } => call_address(
            alloc,
            program,
            addresses,
            top,
            below,
            world,
            line,
            *sig,
            *address,
            args.as_slice(),
            values,
            xs,
        ),
        Inst::ReturnCallIndirect { sig, address, args } => tail_call_address(
            alloc,
            program,
            addresses,
            top,
            below,
            world,
            line,
            *sig,
            *address,
            args.as_slice(),
            values,
            xs,
        ),
    }
}
