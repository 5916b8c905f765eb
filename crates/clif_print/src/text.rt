//! The text of a module.
ghost use Rattle.std.specs.Prelude.{◌≡◌, ◌^◌, ◌-◌, ◌<◌, IfOk, IfSome, OnErr, OnOk, length, min, slice_get};
ghost use Rattle.std.specs.Io.KnownBytes.{Appends};
ghost use Rattle.clk_flow.specs.Faults.{HasCause};
ghost use Rattle.clk_flow.specs.Whole.{AppendsPrefix};
ghost use Rattle.ir_text.specs.Numbering.{numberings_of};
ghost use Rattle.ir_text.specs.Text.{text_of, function_text_of};
ghost use Rattle.text_output.specs.Output.{Start, Puts};

use crate::functions::put_function;
use clif_numbers::Numbers;
use clk_flow::{Failed, Sink};
use ir_core::Module;
use std::alloc::{AllocError, Global};
use text_output::{LengthOutput, MemoryOutput, Output, SinkOutput};

/// Appends the canonical text of the module, whose numbers these are. It takes no memory, and gives the sink a few
/// kilobytes at a time. `Failed` comes only where the sink's count of faults rose; a beginning of the text was appended
/// then.
pub fn print<K: Sink>(module: &Module, numbers: &Numbers, sink: &mut K) -> Result<(), Failed>
    requires { numbers.now ≡ numberings_of «module».now }
    ensures whole { OnOk result (Appends (K.written sink.old) (K.written sink.new) (text_of «module».now)) }
    ensures part { OnErr result (AppendsPrefix (K.written sink.old) (K.written sink.new) (text_of «module».now)) }
    ensures cause { HasCause (K.faults sink.old) (K.faults sink.new) result }
{
    let mut out = SinkOutput::new(sink);
    put_module(&mut out, module, numbers);
    out.finish()
}

/// The length of the canonical text of the module, whose numbers these are, in bytes: the greatest number of the type
/// where it is greater. It takes no memory.
pub fn text_len(module: &Module, numbers: &Numbers) -> u64
    requires { numbers.now ≡ numberings_of «module».now }
    ensures { result ≡ min (length (text_of «module».now)) (2 ^ 64 - 1) }
{
    let mut out = LengthOutput::new();
    put_module(&mut out, module, numbers);
    out.len()
}

/// The canonical text of one function of the module, whose numbers these are. Only `AllocError` refuses.
pub fn func_text(
    alloc: Global,
    module: &Module,
    numbers: &Numbers,
    func: usize,
) -> Result<Vec<u8>, AllocError>
    requires numbers { numbers.now ≡ numberings_of «module».now }
    requires there { func < length «module».now }
    ensures { IfOk result (λ text. IfSome (slice_get «module».now func) (λ f. text.items ≡ function_text_of f)) }
{
    let mut out = MemoryOutput::new(alloc);
    put_function(&mut out, module.func(func), numbers.func(func));
    out.finish()
}

fn put_module<O: Output>(out: &mut O, module: &Module, numbers: &Numbers)
    requires { numbers.now ≡ numberings_of «module».now }
    ensures { Puts O.holds out.old out.new (text_of «module».now) }
{
    if module.is_empty() {
        return;
    }
    put_function(out, module.func(0), numbers.func(0));
    for i in 1..module.len() {
        out.put(b"\n");
        put_function(out, module.func(i), numbers.func(i));
    }
}
