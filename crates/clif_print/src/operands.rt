//! Operands of instructions.
ghost use Rattle.std.specs.Prelude.{ℕ, List, ◌*◌};
ghost use Rattle.clk_num.specs.Views.{data_of};
ghost use Rattle.ir_text.specs.Numbering.{Numbering};
ghost use Rattle.ir_text.specs.TextTree.{Text, spelled, in_brackets, separated};
ghost use Rattle.ir_text.specs.TextInstructions.{value, block_reference, argument, target_arguments, target, entry_tag};
ghost use Rattle.ir_text.specs.TextInstructions.{entry, exception_table, operands, call_arguments, debug_tag};
ghost use Rattle.ir_text.specs.TextInstructions.{debug_tags, suffix, suffix_if, constant, signature_reference};
ghost use Rattle.ir_text.specs.TextInstructions.{callee_reference, trap_code, flag, flags, offset_text, slot_address};
ghost use Rattle.ir_text.specs.TextInstructions.{address};
ghost use Rattle.text_output.specs.Output.{Start, Puts};

use crate::lists::{Item, put_in_parentheses, put_list};
use crate::words::type_word;
use clif_numbers::FuncNumbers;
use clk_num::{Bits, TrapCode};
use debug_tags::Tag;
use exn_tables::Entry;
use ir_core::{Arg, Block, BlockCall, Flags, FuncRef, SigRef, Slot, Ty, Value};
use text_output::{Output, put_number, put_numbered};

/// Puts a value's word.
pub(crate) fn put_value<O: Output>(out: &mut O, numbers: &FuncNumbers, number: Value)
    ensures { Puts O.holds out.old out.new (spelled (value numbers.now.numbering number)) }
{
    out.put(b"v");
    out.put_digits(numbers.value(number));
}

/// Puts a block's word.
pub(crate) fn put_block_reference<O: Output>(out: &mut O, numbers: &FuncNumbers, block: Block)
    ensures { Puts O.holds out.old out.new (spelled (block_reference numbers.now.numbering block)) }
{
    out.put(b"block");
    out.put_digits(numbers.block(block));
}

/// Puts a signature's word.
pub(crate) fn put_signature_reference<O: Output>(out: &mut O, sig: SigRef)
    ensures { Puts O.holds out.old out.new (spelled (signature_reference sig)) }
{
    put_numbered(out, b"sig", sig.number());
}

/// Puts a callee declaration's word.
pub(crate) fn put_callee_reference<O: Output>(out: &mut O, callee: FuncRef)
    ensures { Puts O.holds out.old out.new (spelled (callee_reference callee)) }
{
    put_numbered(out, b"fn", callee.number());
}

impl Item for Value {
    ghost text = { value };

    fn put<O: Output>(&self, numbers: &FuncNumbers, out: &mut O) {
        put_value(out, numbers, *self);
    }
}

impl Item for Arg {
    ghost text = { argument };

    fn put<O: Output>(&self, numbers: &FuncNumbers, out: &mut O) {
        match self {
            Arg::Value(value) => put_value(out, numbers, *value),
            Arg::Ret(number) => put_numbered(out, b"ret", *number),
            Arg::Exn(number) => put_numbered(out, b"exn", *number),
        }
    }
}

fn put_target_arguments<O: Output>(out: &mut O, numbers: &FuncNumbers, args: &[Arg])
    ensures { Puts O.holds out.old out.new (spelled (target_arguments numbers.now.numbering args.now)) }
{
    if !args.is_empty() {
        put_in_parentheses(out, numbers, args);
    }
}

/// Puts a target: its block, and its arguments where it has some.
pub(crate) fn put_target<O: Output>(out: &mut O, numbers: &FuncNumbers, to: &BlockCall)
    ensures { Puts O.holds out.old out.new (spelled (target numbers.now.numbering to.now)) }
{
    put_block_reference(out, numbers, to.block);
    put_target_arguments(out, numbers, to.args.as_slice());
}

impl Item for BlockCall {
    ghost text = { target };

    fn put<O: Output>(&self, numbers: &FuncNumbers, out: &mut O) {
        put_target(out, numbers, self);
    }
}

fn put_entry_tag<O: Output>(out: &mut O, tag: Option<u32>)
    ensures { Puts O.holds out.old out.new (spelled (entry_tag tag)) }
{
    match tag {
        None => out.put(b"default"),
        Some(number) => put_numbered(out, b"tag", number),
    }
}

impl Item for Entry<BlockCall> {
    ghost text = { entry };

    fn put<O: Output>(&self, numbers: &FuncNumbers, out: &mut O) {
        put_entry_tag(out, self.tag);
        out.put(b": ");
        put_target(out, numbers, &self.target);
    }
}

/// Puts an exception table.
pub(crate) fn put_exception_table<O: Output>(
    out: &mut O,
    numbers: &FuncNumbers,
    entries: &[Entry<BlockCall>],
)
    ensures { Puts O.holds out.old out.new (spelled (exception_table numbers.now.numbering entries.now)) }
{
    if entries.is_empty() {
        out.put(b"[]");
    } else {
        out.put(b"[ ");
        put_list(out, numbers, entries);
        out.put(b" ]");
    }
}

/// Puts the targets of a `br_table`.
pub(crate) fn put_target_list<O: Output>(out: &mut O, numbers: &FuncNumbers, targets: &[BlockCall])
    ensures { Puts O.holds out.old out.new
        (spelled (in_brackets (separated (target numbers.now.numbering) targets.now))) }
{
    out.put(b"[");
    put_list(out, numbers, targets);
    out.put(b"]");
}

/// Puts values behind an opcode, with the space before them.
pub(crate) fn put_operands<O: Output>(out: &mut O, numbers: &FuncNumbers, args: &[Value])
    ensures { Puts O.holds out.old out.new (spelled (operands numbers.now.numbering args.now)) }
{
    if !args.is_empty() {
        out.put(b" ");
        put_list(out, numbers, args);
    }
}

/// Puts the arguments of a call, in parentheses.
pub(crate) fn put_call_arguments<O: Output>(out: &mut O, numbers: &FuncNumbers, args: &[Value])
    ensures { Puts O.holds out.old out.new (spelled (call_arguments numbers.now.numbering args.now)) }
{
    put_in_parentheses(out, numbers, args);
}

impl Item for Tag {
    ghost text = { λ n tag. debug_tag tag };

    fn put<O: Output>(&self, _numbers: &FuncNumbers, out: &mut O) {
        match self {
            Tag::User(number) => put_number(out, *number),
            Tag::Slot(slot) => put_numbered(out, b"ss", *slot),
        }
    }
}

/// Puts debug tags, with the space behind them.
pub(crate) fn put_tags<O: Output>(out: &mut O, numbers: &FuncNumbers, tags: &[Tag])
    ensures { Puts O.holds out.old out.new (spelled (debug_tags tags.now)) }
{
    if !tags.is_empty() {
        out.put(b"<");
        put_list(out, numbers, tags);
        out.put(b"> ");
    }
}

/// Puts a type as the suffix of an opcode.
pub(crate) fn put_suffix<O: Output>(out: &mut O, ty: Ty)
    ensures { Puts O.holds out.old out.new (spelled (suffix ty)) }
{
    out.put(b".");
    out.put(type_word(ty));
}

/// Puts a suffix where there is one.
pub(crate) fn put_suffix_if<O: Output>(out: &mut O, ty: Option<Ty>)
    ensures { Puts O.holds out.old out.new (spelled (suffix_if ty)) }
{
    match ty {
        None => {}
        Some(ty) => put_suffix(out, ty),
    }
}

/// Puts a constant or an immediate number, as signed.
pub fn put_constant<O: Output>(out: &mut O, bits: &Bits)
    ensures { Puts O.holds out.old out.new (spelled (constant (data_of bits.now))) }
{
    put_number(out, bits.signed());
}

/// Puts a trap code.
pub fn put_trap_code<O: Output>(out: &mut O, code: TrapCode)
    ensures { Puts O.holds out.old out.new (spelled (trap_code code)) }
{
    match code {
        TrapCode::StkOvf => out.put(b"stk_ovf"),
        TrapCode::IntOvf => out.put(b"int_ovf"),
        TrapCode::HeapOob => out.put(b"heap_oob"),
        TrapCode::IntDivz => out.put(b"int_divz"),
        TrapCode::BadToint => out.put(b"bad_toint"),
        TrapCode::User(number) => put_numbered(out, b"user", u32::from(number)),
    }
}

fn put_flag<O: Output>(out: &mut O, set: bool, word: &[u8])
    ensures { Puts O.holds out.old out.new (spelled (flag set word.now)) }
{
    if set {
        out.put(word);
        out.put(b" ");
    }
}

/// Puts memory flags, each with the space behind it.
pub(crate) fn put_flags<O: Output>(out: &mut O, set: &Flags)
    ensures { Puts O.holds out.old out.new (spelled (flags set.now)) }
{
    put_flag(out, set.notrap, b"notrap");
    put_flag(out, set.aligned, b"aligned");
    put_flag(out, set.readonly, b"readonly");
    put_flag(out, set.can_move, b"can_move");
    put_flag(out, set.little, b"little");
    put_flag(out, set.big, b"big");
    put_flag(out, set.heap, b"heap");
    put_flag(out, set.table, b"table");
    put_flag(out, set.vmctx, b"vmctx");
}

/// Puts an offset with its sign, and nothing for 0.
pub(crate) fn put_offset<O: Output>(out: &mut O, offset: i32)
    ensures { Puts O.holds out.old out.new (spelled (offset_text offset)) }
{
    if offset > 0 {
        out.put(b"+");
        put_number(out, offset);
    } else if offset < 0 {
        put_number(out, offset);
    }
}

/// Puts an address.
pub(crate) fn put_address<O: Output>(out: &mut O, numbers: &FuncNumbers, base: Value, offset: i32)
    ensures { Puts O.holds out.old out.new (spelled (address numbers.now.numbering base offset)) }
{
    put_value(out, numbers, base);
    put_offset(out, offset);
}

/// Puts a place in a stack slot.
pub(crate) fn put_slot_address<O: Output>(out: &mut O, slot: Slot, offset: i32)
    ensures { Puts O.holds out.old out.new (spelled (slot_address slot offset)) }
{
    put_numbered(out, b"ss", slot.number());
    put_offset(out, offset);
}
