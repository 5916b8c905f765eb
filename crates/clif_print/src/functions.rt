//! Lines, blocks and functions.
ghost use Rattle.std.specs.Prelude.{◌≡◌, ℕ, ◌+◌, ◌<◌, ◌^◌, List, length, map};
ghost use Rattle.ir_core.specs.Edits.{params_of, lines_of, block_at, blocks_at};
ghost use Rattle.ir_core.specs.Lists.{In};
ghost use Rattle.ir_core.specs.Lookup.{block_numbers, definitions, line_definitions};
ghost use Rattle.ir_text.specs.Numbering.{Numbering, numbering_of};
ghost use Rattle.ir_text.specs.TextTree.{Text, spelled, more};
ghost use Rattle.ir_text.specs.Text.{results, line, lines, block_parameter, block_parameters, block, more_blocks};
ghost use Rattle.ir_text.specs.Text.{blocks, canonical_function};
ghost use Rattle.ir_text.specs.TextInstructions.{type_text, next_after};
ghost use Rattle.ir_text.specs.TextDeclarations.{after_declarations};
ghost use Rattle.ir_core.specs.Viewed.{line_of};
ghost use Rattle.text_output.specs.Output.{Start, Puts};

use crate::declarations::put_declarations;
use crate::instructions::put_instruction;
use crate::lists::put_list;
use crate::operands::{put_block_reference, put_tags, put_value};
use crate::signatures::{put_name, put_signature};
use crate::suffixes::{shown_suffix, type_of};
use crate::words::type_word;
use clif_numbers::FuncNumbers;
use ir_core::{Block, Blocks, Func, InstData, Ty, Value};
use text_output::Output;

fn put_results<O: Output>(out: &mut O, func: &Func, numbers: &FuncNumbers, defined: &[Value])
    ensures { Puts O.holds out.old out.new (spelled (results func.now.function numbers.now.numbering defined.now)) }
{
    if !defined.is_empty() {
        put_list(out, numbers, defined);
        out.put(b" = ");
    }
}

/// Puts an instruction on its line. `next` is the number of the next value that is defined.
fn put_line<O: Output>(out: &mut O, func: &Func, numbers: &FuncNumbers, next: u32, inst: &InstData)
    ensures { Puts O.holds out.old out.new
        (spelled (line func.now.function numbers.now.numbering next (line_of inst.now))) }
{
    out.put(b"    ");
    put_tags(out, numbers, inst.tags.list());
    put_results(out, func, numbers, inst.results.as_slice());
    put_instruction(
        out,
        numbers,
        shown_suffix(func, numbers, next, inst),
        &inst.inst,
    );
    out.put(b"\n");
}

/// Puts instructions, each on its line, and answers the number of the next value behind them.
fn put_lines<O: Output>(
    out: &mut O,
    func: &Func,
    numbers: &FuncNumbers,
    first: u32,
    insts: &[InstData],
) -> u32
    requires { first + length (line_definitions (map line_of insts.now)) < 2 ^ 32 }
    ensures text { Puts O.holds out.old out.new
        (spelled (lines func.now.function numbers.now.numbering first (map line_of insts.now))) }
    ensures next { result ≡ first + length (line_definitions (map line_of insts.now)) }
{
    let mut next = first;
    let mut rest = insts;
    'lines: while let Some((inst, after)) = rest.split_first() {
        put_line(out, func, numbers, next, inst);
        next += inst.results.as_slice().len() as u32;
        rest = after;
    }
    next
}

fn put_type<O: Output>(out: &mut O, ty: Option<Ty>)
    ensures { Puts O.holds out.old out.new (spelled (type_text ty)) }
{
    if let Some(ty) = ty {
        out.put(type_word(ty));
    }
}

fn put_block_parameter<O: Output>(out: &mut O, func: &Func, numbers: &FuncNumbers, param: Value)
    ensures { Puts O.holds out.old out.new (spelled (block_parameter func.now.function numbers.now.numbering param)) }
{
    put_value(out, numbers, param);
    out.put(b": ");
    put_type(out, type_of(func, param));
}

/// Puts further parameters, each behind a comma.
fn put_more_parameters<O: Output>(out: &mut O, func: &Func, numbers: &FuncNumbers, params: &[Value])
    ensures { Puts O.holds out.old out.new
        (spelled (more (block_parameter func.now.function numbers.now.numbering) params.now)) }
{
    let mut rest = params;
    'params: while let Some((param, after)) = rest.split_first() {
        out.put(b", ");
        put_block_parameter(out, func, numbers, *param);
        rest = after;
    }
}

fn put_block_parameters<O: Output>(
    out: &mut O,
    func: &Func,
    numbers: &FuncNumbers,
    params: &[Value],
)
    ensures { Puts O.holds out.old out.new
        (spelled (block_parameters func.now.function numbers.now.numbering params.now)) }
{
    if let Some((first, rest)) = params.split_first() {
        out.put(b"(");
        put_block_parameter(out, func, numbers, *first);
        put_more_parameters(out, func, numbers, rest);
        out.put(b")");
    }
}

/// Puts a block, and answers the number of the next value behind it.
fn put_block<O: Output>(
    out: &mut O,
    func: &Func,
    numbers: &FuncNumbers,
    next: u32,
    number: Block,
) -> u32
    requires there { In number (block_numbers func.now.function.blocks) }
    requires few { next + length (params_of number func.now.function.blocks)
        + length (line_definitions (lines_of number func.now.function.blocks)) < 2 ^ 32 }
    ensures text { Puts O.holds out.old out.new
        (spelled (block func.now.function numbers.now.numbering next (block_at func.now.function.blocks number))) }
    ensures next { result ≡ next_after next (block_at func.now.function.blocks number) }
{
    let params = func.params(number);
    put_block_reference(out, numbers, number);
    put_block_parameters(out, func, numbers, params);
    out.put(b":\n");
    put_lines(
        out,
        func,
        numbers,
        next + params.len() as u32,
        func.inst_slice(number),
    )
}

/// Puts further blocks, each behind an empty line.
fn put_more_blocks<O: Output>(
    out: &mut O,
    func: &Func,
    numbers: &FuncNumbers,
    first: u32,
    order: Blocks<'_>,
)
    requires there { (n : ℕ) → In n order → In n (block_numbers func.now.function.blocks) }
    requires few { first + length (definitions (blocks_at func.now.function.blocks order)) < 2 ^ 32 }
    ensures { Puts O.holds out.old out.new
        (spelled (more_blocks func.now.function numbers.now.numbering first
        (blocks_at func.now.function.blocks order.entry))) }
{
    let mut next = first;
    for number in order {
        out.put(b"\n");
        next = put_block(out, func, numbers, next, number);
    }
}

fn put_blocks<O: Output>(out: &mut O, func: &Func, numbers: &FuncNumbers)
    requires { numbers.now.numbering ≡ numbering_of func.now.function }
    ensures { Puts O.holds out.old out.new
        (spelled (blocks func.now.function numbers.now.numbering func.now.function.blocks)) }
{
    let mut order = func.blocks();
    if let Some(number) = order.next() {
        let next = put_block(out, func, numbers, 0, number);
        put_more_blocks(out, func, numbers, next, order);
    }
}

fn put_gap<O: Output>(out: &mut O, func: &Func)
    ensures { Puts O.holds out.old out.new (spelled (after_declarations func.now.function)) }
{
    if !(func.slots().is_empty() && func.sigs().is_empty() && func.callees().is_empty()) {
        out.put(b"\n");
    }
}

/// Puts a function, whose numbers these are.
pub fn put_function<O: Output>(out: &mut O, func: &Func, numbers: &FuncNumbers)
    requires { numbers.now.numbering ≡ numbering_of func.now.function }
    ensures { Puts O.holds out.old out.new (spelled (canonical_function func.now.function)) }
{
    out.put(b"function ");
    put_name(out, func.name());
    put_signature(out, numbers, func.sig());
    out.put(b" {\n");
    put_declarations(out, numbers, func.slots());
    put_declarations(out, numbers, func.sigs());
    put_declarations(out, numbers, func.callees());
    put_gap(out, func);
    put_blocks(out, func, numbers);
    out.put(b"}\n");
}
