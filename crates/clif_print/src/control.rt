//! Instructions that pass control on: jumps, returns, traps and calls.
ghost use Rattle.std.specs.Prelude.{ℕ, List};
ghost use Rattle.ir_text.specs.Numbering.{Numbering};
ghost use Rattle.ir_text.specs.TextTree.{Text, spelled, comma, ◌▹◌};
ghost use Rattle.ir_text.specs.TextInstructions.{instruction, signature_reference, target, exception_table};
ghost use Rattle.ir_core.specs.Viewed.{instruction_of};
ghost use Rattle.ir_core.specs.declared.instructions.Inst.TheVariants as form;
ghost use Rattle.text_output.specs.Output.{Start, Puts};

use crate::operands::{
    put_call_arguments, put_callee_reference, put_exception_table, put_operands,
    put_signature_reference, put_suffix_if, put_target, put_target_list, put_trap_code, put_value,
};
use crate::words::put_opcode;
use clif_numbers::FuncNumbers;
use clif_words::Opcode;
use clk_num::TrapCode;
use exn_tables::Table;
use ir_core::{BlockCall, FuncRef, List, SigRef, Ty, Value, Values};
use text_output::Output;

pub(crate) fn put_jump<O: Output>(
    out: &mut O,
    numbers: &FuncNumbers,
    suffix: Option<Ty>,
    to: &BlockCall,
)
    ensures { Puts O.holds out.old out.new
        (spelled (instruction numbers.now.numbering suffix (instruction_of (form.Jump to.now)))) }
{
    put_opcode(out, Opcode::Jump);
    out.put(b" ");
    put_target(out, numbers, to);
}

pub(crate) fn put_brif<O: Output>(
    out: &mut O,
    numbers: &FuncNumbers,
    suffix: Option<Ty>,
    cond: Value,
    yes: &BlockCall,
    no: &BlockCall,
)
    ensures { Puts O.holds out.old out.new
        (spelled (instruction numbers.now.numbering suffix (instruction_of (form.Brif cond yes.now no.now)))) }
{
    put_opcode(out, Opcode::Brif);
    put_suffix_if(out, suffix);
    out.put(b" ");
    put_value(out, numbers, cond);
    out.put(b", ");
    put_target(out, numbers, yes);
    out.put(b", ");
    put_target(out, numbers, no);
}

pub(crate) fn put_br_table<O: Output>(
    out: &mut O,
    numbers: &FuncNumbers,
    suffix: Option<Ty>,
    index: Value,
    default: &BlockCall,
    entries: &List<BlockCall>,
)
    ensures { Puts O.holds out.old out.new
        (spelled (instruction numbers.now.numbering suffix
        (instruction_of (form.BrTable index default.now entries.now)))) }
{
    put_opcode(out, Opcode::BrTable);
    out.put(b" ");
    put_value(out, numbers, index);
    out.put(b", ");
    put_target(out, numbers, default);
    out.put(b", ");
    put_target_list(out, numbers, entries.as_slice());
}

pub(crate) fn put_return<O: Output>(
    out: &mut O,
    numbers: &FuncNumbers,
    suffix: Option<Ty>,
    values: &Values,
)
    ensures { Puts O.holds out.old out.new
        (spelled (instruction numbers.now.numbering suffix (instruction_of (form.Return values.now)))) }
{
    put_opcode(out, Opcode::Return);
    put_operands(out, numbers, values.as_slice());
}

pub(crate) fn put_trap<O: Output>(
    out: &mut O,
    numbers: &FuncNumbers,
    suffix: Option<Ty>,
    code: TrapCode,
)
    ensures { Puts O.holds out.old out.new
        (spelled (instruction numbers.now.numbering suffix (instruction_of (form.Trap code)))) }
{
    put_opcode(out, Opcode::Trap);
    out.put(b" ");
    put_trap_code(out, code);
}

pub(crate) fn put_trapz<O: Output>(
    out: &mut O,
    numbers: &FuncNumbers,
    suffix: Option<Ty>,
    cond: Value,
    code: TrapCode,
)
    ensures { Puts O.holds out.old out.new
        (spelled (instruction numbers.now.numbering suffix (instruction_of (form.Trapz cond code)))) }
{
    put_opcode(out, Opcode::Trapz);
    put_suffix_if(out, suffix);
    out.put(b" ");
    put_value(out, numbers, cond);
    out.put(b", ");
    put_trap_code(out, code);
}

pub(crate) fn put_trapnz<O: Output>(
    out: &mut O,
    numbers: &FuncNumbers,
    suffix: Option<Ty>,
    cond: Value,
    code: TrapCode,
)
    ensures { Puts O.holds out.old out.new
        (spelled (instruction numbers.now.numbering suffix (instruction_of (form.Trapnz cond code)))) }
{
    put_opcode(out, Opcode::Trapnz);
    put_suffix_if(out, suffix);
    out.put(b" ");
    put_value(out, numbers, cond);
    out.put(b", ");
    put_trap_code(out, code);
}

pub(crate) fn put_call<O: Output>(
    out: &mut O,
    numbers: &FuncNumbers,
    suffix: Option<Ty>,
    callee: FuncRef,
    args: &Values,
)
    ensures { Puts O.holds out.old out.new
        (spelled (instruction numbers.now.numbering suffix (instruction_of (form.Call callee args.now)))) }
{
    put_opcode(out, Opcode::Call);
    out.put(b" ");
    put_callee_reference(out, callee);
    put_call_arguments(out, numbers, args.as_slice());
}

pub(crate) fn put_return_call<O: Output>(
    out: &mut O,
    numbers: &FuncNumbers,
    suffix: Option<Ty>,
    callee: FuncRef,
    args: &Values,
)
    ensures { Puts O.holds out.old out.new
        (spelled (instruction numbers.now.numbering suffix (instruction_of (form.ReturnCall callee args.now)))) }
{
    put_opcode(out, Opcode::ReturnCall);
    out.put(b" ");
    put_callee_reference(out, callee);
    put_call_arguments(out, numbers, args.as_slice());
}

pub(crate) fn put_call_indirect<O: Output>(
    out: &mut O,
    numbers: &FuncNumbers,
    suffix: Option<Ty>,
    sig: SigRef,
    address: Value,
    args: &Values,
)
    ensures { Puts O.holds out.old out.new
        (spelled (instruction numbers.now.numbering suffix (instruction_of (form.CallIndirect sig address args.now)))) }
{
    put_opcode(out, Opcode::CallIndirect);
    out.put(b" ");
    put_signature_reference(out, sig);
    out.put(b", ");
    put_value(out, numbers, address);
    put_call_arguments(out, numbers, args.as_slice());
}

pub(crate) fn put_return_call_indirect<O: Output>(
    out: &mut O,
    numbers: &FuncNumbers,
    suffix: Option<Ty>,
    sig: SigRef,
    address: Value,
    args: &Values,
)
    ensures { Puts O.holds out.old out.new
        (spelled (instruction numbers.now.numbering suffix
        (instruction_of (form.ReturnCallIndirect sig address args.now)))) }
{
    put_opcode(out, Opcode::ReturnCallIndirect);
    out.put(b" ");
    put_signature_reference(out, sig);
    out.put(b", ");
    put_value(out, numbers, address);
    put_call_arguments(out, numbers, args.as_slice());
}

/// Puts what stands behind the arguments of a call with an exception table.
fn put_outcomes<O: Output>(
    out: &mut O,
    numbers: &FuncNumbers,
    sig: SigRef,
    normal: &BlockCall,
    table: &Table<BlockCall>,
)
    ensures { Puts O.holds out.old out.new
        (spelled (comma ▹ signature_reference sig ▹ comma ▹ target numbers.now.numbering normal.now ▹ comma
        ▹ exception_table numbers.now.numbering table.now)) }
{
    out.put(b", ");
    put_signature_reference(out, sig);
    out.put(b", ");
    put_target(out, numbers, normal);
    out.put(b", ");
    put_exception_table(out, numbers, table.entries());
}

pub(crate) fn put_try_call<O: Output>(
    out: &mut O,
    numbers: &FuncNumbers,
    suffix: Option<Ty>,
    callee: FuncRef,
    sig: SigRef,
    args: &Values,
    normal: &BlockCall,
    table: &Table<BlockCall>,
)
    ensures { Puts O.holds out.old out.new
        (spelled (instruction numbers.now.numbering suffix
        (instruction_of (form.TryCall callee sig args.now normal.now table.now)))) }
{
    put_opcode(out, Opcode::TryCall);
    out.put(b" ");
    put_callee_reference(out, callee);
    put_call_arguments(out, numbers, args.as_slice());
    put_outcomes(out, numbers, sig, normal, table);
}

pub(crate) fn put_try_call_indirect<O: Output>(
    out: &mut O,
    numbers: &FuncNumbers,
    suffix: Option<Ty>,
    sig: SigRef,
    address: Value,
    args: &Values,
    normal: &BlockCall,
    table: &Table<BlockCall>,
)
    ensures { Puts O.holds out.old out.new
        (spelled (instruction numbers.now.numbering suffix
        (instruction_of (form.TryCallIndirect sig address args.now normal.now table.now)))) }
{
    put_opcode(out, Opcode::TryCallIndirect);
    out.put(b" ");
    put_value(out, numbers, address);
    put_call_arguments(out, numbers, args.as_slice());
    put_outcomes(out, numbers, sig, normal, table);
}
