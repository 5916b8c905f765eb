//! Declarations, each on a line.
ghost use Rattle.std.specs.Prelude.{ℕ, List};
ghost use Rattle.ir_text.specs.TextTree.{Text, spelled};
ghost use Rattle.ir_text.specs.TextDeclarations.{alignment, colocation, slot_line, signature_line, callee_line};
ghost use Rattle.ir_text.specs.TextDeclarations.{declarations};
ghost use Rattle.text_output.specs.Output.{Start, Puts};

use crate::operands::put_signature_reference;
use crate::signatures::{put_name, put_signature};
use clif_numbers::FuncNumbers;
use ir_core::{Callee, Sig, SlotDecl};
use text_output::{Output, put_number};

/// What is declared before the blocks.
pub(crate) trait Declared {
    /// Its line, with its number.
    ghost line: { ℕ → Self → Text };

    /// Puts its line.
    fn put_line<O: Output>(&self, number: usize, numbers: &FuncNumbers, out: &mut O)
        ensures { Puts O.holds out.old out.new (spelled (line number self.now)) };
}

/// Puts declarations, which are numbered from 0.
pub(crate) fn put_declarations<T: Declared, O: Output>(
    out: &mut O,
    numbers: &FuncNumbers,
    items: &[T],
)
    ensures { Puts O.holds out.old out.new (spelled (declarations T.line 0 items.now)) }
{
    for (i, item) in items.iter().enumerate() {
        item.put_line(i, numbers, out);
    }
}

fn put_alignment<O: Output>(out: &mut O, align: u32)
    ensures { Puts O.holds out.old out.new (spelled (alignment align)) }
{
    if align != 1 {
        out.put(b", align = ");
        put_number(out, align);
    }
}

impl Declared for SlotDecl {
    ghost line = { slot_line };

    fn put_line<O: Output>(&self, number: usize, _numbers: &FuncNumbers, out: &mut O) {
        out.put(b"    ss");
        put_number(out, number);
        out.put(b" = explicit_slot ");
        put_number(out, self.size);
        put_alignment(out, self.align);
        out.put(b"\n");
    }
}

impl Declared for Sig {
    ghost line = { signature_line };

    fn put_line<O: Output>(&self, number: usize, numbers: &FuncNumbers, out: &mut O) {
        out.put(b"    sig");
        put_number(out, number);
        out.put(b" = ");
        put_signature(out, numbers, self);
        out.put(b"\n");
    }
}

fn put_colocation<O: Output>(out: &mut O, colocated: bool)
    ensures { Puts O.holds out.old out.new (spelled (colocation colocated)) }
{
    if colocated {
        out.put(b"colocated ");
    }
}

impl Declared for Callee {
    ghost line = { callee_line };

    fn put_line<O: Output>(&self, number: usize, _numbers: &FuncNumbers, out: &mut O) {
        out.put(b"    fn");
        put_number(out, number);
        out.put(b" = ");
        put_colocation(out, self.colocated);
        put_name(out, &self.name);
        out.put(b" ");
        put_signature_reference(out, self.sig);
        out.put(b"\n");
    }
}
