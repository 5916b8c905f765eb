//! Functions put one behind the other, by numbers that have room for each of them.
ghost use Rattle.std.specs.Prelude.{◌≤◌, IfOk, length};
ghost use Rattle.ir_core.specs.Sound.{IsWhole};
ghost use Rattle.ir_text.specs.Text.{text_of, function_text_of};
ghost use Rattle.clif_numbers.specs.Room.{HasRoomFor, KeepsRoom};
ghost use Rattle.text_output.specs.Output.{Start, Puts};
ghost use Rattle.print_workers.specs.Parts.{HaveRoom, PutsPart, before_function};

use crate::functions::Functions;
use clif_numbers::FuncNumbers;
use clif_print::put_function;
use ir_core::Func;
use std::alloc::{AllocError, Global};
use text_output::Output;

/// Numbers with room for each function from one on and before another. Only `AllocError` refuses.
pub(crate) fn numbers_between<F: Functions>(
    alloc: Global,
    functions: &F,
    from: usize,
    end: usize,
) -> Result<FuncNumbers, AllocError>
    requires { end ≤ length (F.functions functions.now) }
    ensures { IfOk result (λ numbers. HaveRoom (F.functions functions.now) from end numbers) }
{
    let mut numbers = FuncNumbers::new(alloc);
    for i in from..end {
        numbers.make_room(functions.func(i))?;
    }
    Ok(numbers)
}

/// Puts the text of all functions, by numbers that have room for each.
pub(crate) fn put_functions<O: Output, F: Functions>(
    out: &mut O,
    numbers: &mut FuncNumbers,
    functions: &F,
)
    requires { HaveRoom (F.functions functions.now) 0 (length (F.functions functions.now)) numbers.old }
    ensures { Puts O.holds out.old out.new (text_of (F.functions functions.now)) }
{
    put_part(out, numbers, functions, 0, functions.len());
}

/// Puts the part of the functions' text from a function on and before another, by numbers that have room for each.
pub(crate) fn put_part<O: Output, F: Functions>(
    out: &mut O,
    numbers: &mut FuncNumbers,
    functions: &F,
    from: usize,
    end: usize,
)
    requires range { (from ≤ end) × (end ≤ length (F.functions functions.now)) }
    requires room { HaveRoom (F.functions functions.now) from end numbers.old }
    ensures { PutsPart O.holds out.old out.new (F.functions functions.now) from end }
{
    for i in from..end {
        put_before_function(out, i);
        put_alone(out, numbers, functions.func(i));
    }
}

/// Puts the empty line that stands before each function but the first.
fn put_before_function<O: Output>(out: &mut O, place: usize)
    ensures { Puts O.holds out.old out.new (before_function place) }
{
    if place != 0 {
        out.put(b"\n");
    }
}

/// Numbers a whole function, for which there is room, and puts it.
fn put_alone<O: Output>(out: &mut O, numbers: &mut FuncNumbers, func: &Func)
    requires whole { IsWhole func.now.function }
    requires room { HasRoomFor func.now.function numbers.old }
    ensures text { Puts O.holds out.old out.new (function_text_of func.now.function) }
    ensures kept { KeepsRoom numbers.old numbers.new }
{
    let numbered = numbers.renumber(func);
    prove!(numbered.is_ok());
    put_function(out, func, numbers);
}
