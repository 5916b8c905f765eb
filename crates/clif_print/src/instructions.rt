//! Instructions, by their forms.
ghost use Rattle.std.specs.Prelude.{ℕ, List};
ghost use Rattle.ir_text.specs.Numbering.{Numbering};
ghost use Rattle.ir_text.specs.TextTree.{Text, spelled, comma, ◌▹◌};
ghost use Rattle.ir_text.specs.TextInstructions.{instruction, value, address, slot_address, op_suffix, condition};
ghost use Rattle.ir_text.specs.TextInstructions.{suffix_but_i64};
ghost use Rattle.ir_text.specs.TextInstructions.{extending_suffix, load_opcode, store_opcode};
ghost use Rattle.ir_core.specs.Viewed.{instruction_of};
ghost use Rattle.ir_core.specs.declared.instructions.Inst.TheVariants as form;
ghost use Rattle.text_output.specs.Output.{Start, Puts};

use crate::control::{
    put_br_table, put_brif, put_call, put_call_indirect, put_jump, put_return, put_return_call,
    put_return_call_indirect, put_trap, put_trapnz, put_trapz, put_try_call, put_try_call_indirect,
};
use crate::operands::{
    put_address, put_callee_reference, put_constant, put_flags, put_operands, put_slot_address,
    put_suffix, put_suffix_if, put_value,
};
use crate::words::{condition_word, put_opcode};
use clif_numbers::FuncNumbers;
use clif_words::Opcode;
use clk_num::{Bits, Op};
use ir_core::{Access, Flags, FuncRef, Inst, Slot, Ty, Value};
use text_output::{Output, put_numbered};

/// Puts the suffix of an operation.
fn put_op_suffix<O: Output>(out: &mut O, op: Op, suffix: Option<Ty>)
    ensures { Puts O.holds out.old out.new (spelled (op_suffix op suffix)) }
{
    match op {
        Op::Uextend(width) => put_suffix(out, Ty::of_width(width)),
        Op::Sextend(width) => put_suffix(out, Ty::of_width(width)),
        Op::Ireduce(width) => put_suffix(out, Ty::of_width(width)),
        _ => put_suffix_if(out, suffix),
    }
}

/// Puts the condition of a comparison, with the space before it.
fn put_condition<O: Output>(out: &mut O, op: Op)
    ensures { Puts O.holds out.old out.new (spelled (condition op)) }
{
    if let Op::Icmp(condition) = op {
        out.put(b" ");
        out.put(condition_word(condition));
    }
}

fn put_const<O: Output>(out: &mut O, numbers: &FuncNumbers, suffix: Option<Ty>, bits: &Bits)
    ensures { Puts O.holds out.old out.new
        (spelled (instruction numbers.now.numbering suffix (instruction_of (form.Const bits.now)))) }
{
    put_opcode(out, Opcode::Iconst);
    put_suffix(out, Ty::of_width(bits.width()));
    out.put(b" ");
    put_constant(out, bits);
}

fn put_pure<O: Output>(
    out: &mut O,
    numbers: &FuncNumbers,
    suffix: Option<Ty>,
    op: Op,
    args: &[Value],
)
    ensures { Puts O.holds out.old out.new
        (spelled (instruction numbers.now.numbering suffix (instruction_of (form.Pure op args.now)))) }
{
    put_opcode(out, Opcode::of(op));
    put_op_suffix(out, op, suffix);
    put_condition(out, op);
    put_operands(out, numbers, args);
}

fn put_pure_imm<O: Output>(
    out: &mut O,
    numbers: &FuncNumbers,
    suffix: Option<Ty>,
    op: Op,
    arg: Value,
    imm: &Bits,
)
    ensures { Puts O.holds out.old out.new
        (spelled (instruction numbers.now.numbering suffix (instruction_of (form.PureImm op arg imm.now)))) }
{
    put_opcode(out, Opcode::of(op));
    out.put(b"_imm");
    put_suffix_if(out, suffix);
    put_condition(out, op);
    out.put(b" ");
    put_value(out, numbers, arg);
    out.put(b", ");
    put_constant(out, imm);
}

/// Puts a suffix, but for that of i64.
fn put_suffix_but_i64<O: Output>(out: &mut O, suffix: Option<Ty>)
    ensures { Puts O.holds out.old out.new (spelled (suffix_but_i64 suffix)) }
{
    match suffix {
        None => {}
        Some(Ty::I64) => {}
        Some(ty) => put_suffix(out, ty),
    }
}

/// Puts the suffix of a load that extends: of 4 bytes that of the instruction, else the type of its result.
fn put_extending_suffix<O: Output>(out: &mut O, suffix: Option<Ty>, ty: Ty, bytes: u8)
    ensures { Puts O.holds out.old out.new (spelled (extending_suffix suffix ty bytes)) }
{
    if bytes == 4 {
        put_suffix_but_i64(out, suffix);
    } else {
        put_suffix(out, ty);
    }
}

fn put_load_opcode<O: Output>(out: &mut O, suffix: Option<Ty>, access: Access)
    ensures { Puts O.holds out.old out.new (spelled (load_opcode suffix access)) }
{
    match access {
        Access::Full(ty) => {
            put_opcode(out, Opcode::Load);
            put_suffix(out, ty);
        }
        Access::Uload(ty, bytes) => {
            put_numbered(out, b"uload", 8 * u32::from(bytes));
            put_extending_suffix(out, suffix, ty, bytes);
        }
        Access::Sload(ty, bytes) => {
            put_numbered(out, b"sload", 8 * u32::from(bytes));
            put_extending_suffix(out, suffix, ty, bytes);
        }
    }
}

fn put_load<O: Output>(
    out: &mut O,
    numbers: &FuncNumbers,
    suffix: Option<Ty>,
    access: Access,
    flags: &Flags,
    address: Value,
    offset: i32,
)
    ensures { Puts O.holds out.old out.new
        (spelled (instruction numbers.now.numbering suffix
        (instruction_of (form.Load access flags.now address offset)))) }
{
    put_load_opcode(out, suffix, access);
    out.put(b" ");
    put_flags(out, flags);
    put_address(out, numbers, address, offset);
}

fn put_store_opcode<O: Output>(out: &mut O, narrow: Option<u8>)
    ensures { Puts O.holds out.old out.new (spelled (store_opcode narrow)) }
{
    match narrow {
        None => put_opcode(out, Opcode::Store),
        Some(bytes) => put_numbered(out, b"istore", 8 * u32::from(bytes)),
    }
}

fn put_store<O: Output>(
    out: &mut O,
    numbers: &FuncNumbers,
    suffix: Option<Ty>,
    narrow: Option<u8>,
    flags: &Flags,
    value: Value,
    address: Value,
    offset: i32,
)
    ensures { Puts O.holds out.old out.new
        (spelled (instruction numbers.now.numbering suffix
        (instruction_of (form.Store narrow flags.now value address offset)))) }
{
    put_store_opcode(out, narrow);
    put_suffix_if(out, suffix);
    out.put(b" ");
    put_flags(out, flags);
    put_stored(out, numbers, value, address, offset);
}

/// Puts a value that is stored, and the address.
fn put_stored<O: Output>(
    out: &mut O,
    numbers: &FuncNumbers,
    stored: Value,
    base: Value,
    offset: i32,
)
    ensures { Puts O.holds out.old out.new
        (spelled (value numbers.now.numbering stored ▹ comma ▹ address numbers.now.numbering base offset)) }
{
    put_value(out, numbers, stored);
    out.put(b", ");
    put_address(out, numbers, base, offset);
}

/// Puts a value that is stored, and the place in a slot.
fn put_stored_in_slot<O: Output>(
    out: &mut O,
    numbers: &FuncNumbers,
    stored: Value,
    slot: Slot,
    offset: i32,
)
    ensures { Puts O.holds out.old out.new
        (spelled (value numbers.now.numbering stored ▹ comma ▹ slot_address slot offset)) }
{
    put_value(out, numbers, stored);
    out.put(b", ");
    put_slot_address(out, slot, offset);
}

fn put_stack_load<O: Output>(
    out: &mut O,
    numbers: &FuncNumbers,
    suffix: Option<Ty>,
    ty: Ty,
    slot: Slot,
    offset: i32,
)
    ensures { Puts O.holds out.old out.new
        (spelled (instruction numbers.now.numbering suffix (instruction_of (form.StackLoad ty slot offset)))) }
{
    put_opcode(out, Opcode::StackLoad);
    put_suffix(out, ty);
    out.put(b" ");
    put_slot_address(out, slot, offset);
}

fn put_stack_store<O: Output>(
    out: &mut O,
    numbers: &FuncNumbers,
    suffix: Option<Ty>,
    value: Value,
    slot: Slot,
    offset: i32,
)
    ensures { Puts O.holds out.old out.new
        (spelled (instruction numbers.now.numbering suffix (instruction_of (form.StackStore value slot offset)))) }
{
    put_opcode(out, Opcode::StackStore);
    put_suffix_if(out, suffix);
    out.put(b" ");
    put_stored_in_slot(out, numbers, value, slot, offset);
}

fn put_func_addr<O: Output>(out: &mut O, numbers: &FuncNumbers, suffix: Option<Ty>, callee: FuncRef)
    ensures { Puts O.holds out.old out.new
        (spelled (instruction numbers.now.numbering suffix (instruction_of (form.FuncAddr callee)))) }
{
    put_opcode(out, Opcode::FuncAddr);
    out.put(b".i64 ");
    put_callee_reference(out, callee);
}

/// Puts an instruction. `suffix` is the suffix that is printed where the form may leave it out.
pub(crate) fn put_instruction<O: Output>(
    out: &mut O,
    numbers: &FuncNumbers,
    suffix: Option<Ty>,
    inst: &Inst,
)
    ensures { Puts O.holds out.old out.new
        (spelled (instruction numbers.now.numbering suffix (instruction_of inst.now))) }
{
    match inst {
        Inst::Nop => put_opcode(out, Opcode::Nop),
        Inst::SequencePoint => put_opcode(out, Opcode::SequencePoint),
        Inst::Const(bits) => put_const(out, numbers, suffix, bits),
        Inst::Pure { op, args } => put_pure(out, numbers, suffix, *op, args.as_slice()),
        Inst::PureImm { op, arg, imm } => put_pure_imm(out, numbers, suffix, *op, *arg, imm),
        Inst::Load {
            access,
            flags,
            address,
            offset,
        } => put_load(out, numbers, suffix, *access, flags, *address, *offset),
        Inst::Store {
            narrow,
            flags,
            value,
            address,
            offset,
        } => put_store(
            out, numbers, suffix, *narrow, flags, *value, *address, *offset,
        ),
        Inst::StackLoad { ty, slot, offset } => {
            put_stack_load(out, numbers, suffix, *ty, *slot, *offset)
        }
        Inst::StackStore {
            value,
            slot,
            offset,
        } => put_stack_store(out, numbers, suffix, *value, *slot, *offset),
        Inst::FuncAddr(callee) => put_func_addr(out, numbers, suffix, *callee),
        Inst::Jump(to) => put_jump(out, numbers, suffix, to),
        Inst::Brif { cond, yes, no } => put_brif(out, numbers, suffix, *cond, yes.get(), no.get()),
        Inst::BrTable {
            index,
            default,
            entries,
        } => put_br_table(out, numbers, suffix, *index, default.get(), entries),
        Inst::Return(values) => put_return(out, numbers, suffix, values),
        Inst::Trap(code) => put_trap(out, numbers, suffix, *code),
        Inst::Trapz { cond, code } => put_trapz(out, numbers, suffix, *cond, *code),
        Inst::Trapnz { cond, code } => put_trapnz(out, numbers, suffix, *cond, *code),
        Inst::Call { callee, args } => put_call(out, numbers, suffix, *callee, args),
        Inst::ReturnCall { callee, args } => put_return_call(out, numbers, suffix, *callee, args),
        Inst::TryCall {
            callee,
            sig,
            args,
            normal,
            table,
        } => put_try_call(
            out,
            numbers,
            suffix,
            *callee,
            *sig,
            args,
            normal.get(),
            table.get(),
        ),
        Inst::CallIndirect { sig, address, args } => {
            put_call_indirect(out, numbers, suffix, *sig, *address, args)
        }
        Inst::ReturnCallIndirect { sig, address, args } => {
            put_return_call_indirect(out, numbers, suffix, *sig, *address, args)
        }
        Inst::TryCallIndirect {
            sig,
            address,
            args,
            normal,
            table,
        } => put_try_call_indirect(
            out,
            numbers,
            suffix,
            *sig,
            *address,
            args,
            normal.get(),
            table.get(),
        ),
    }
}
