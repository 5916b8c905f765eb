//! Names, signatures and declarations.
ghost use Rattle.std.specs.Prelude.{ℕ, List};
ghost use Rattle.ir_text.specs.Numbering.{Numbering};
ghost use Rattle.ir_text.specs.TextTree.{Text, spelled};
ghost use Rattle.ir_text.specs.TextDeclarations.{function_name, extension, purpose_text, parameter, signature_results};
ghost use Rattle.ir_text.specs.TextDeclarations.{signature};
ghost use Rattle.text_output.specs.Output.{Start, Puts};

use crate::lists::{Item, put_in_parentheses, put_list};
use crate::words::{convention_word, type_word};
use clif_numbers::FuncNumbers;
use ir_core::{Ext, FuncName, Param, Purpose, Sig};
use text_output::{Output, put_number, put_numbered};

/// Puts the name of a function.
pub fn put_name<O: Output>(out: &mut O, name: &FuncName)
    ensures { Puts O.holds out.old out.new (spelled (function_name name.now)) }
{
    match name {
        FuncName::Text(text) => {
            out.put(b"%");
            out.put(text.as_slice());
        }
        FuncName::User(space, index) => {
            put_numbered(out, b"u", *space);
            out.put(b":");
            put_number(out, *index);
        }
    }
}

fn put_extension<O: Output>(out: &mut O, ext: Ext)
    ensures { Puts O.holds out.old out.new (spelled (extension ext)) }
{
    match ext {
        Ext::No => {}
        Ext::Uext => out.put(b" uext"),
        Ext::Sext => out.put(b" sext"),
    }
}

fn put_purpose<O: Output>(out: &mut O, purpose: Purpose)
    ensures { Puts O.holds out.old out.new (spelled (purpose_text purpose)) }
{
    match purpose {
        Purpose::Normal => {}
        Purpose::Vmctx => out.put(b" vmctx"),
        Purpose::Sret => out.put(b" sret"),
    }
}

impl Item for Param {
    ghost text = { λ n p. parameter p };

    fn put<O: Output>(&self, _numbers: &FuncNumbers, out: &mut O) {
        out.put(type_word(self.ty));
        put_extension(out, self.ext);
        put_purpose(out, self.purpose);
    }
}

fn put_results<O: Output>(out: &mut O, numbers: &FuncNumbers, results: &[Param])
    ensures { Puts O.holds out.old out.new (spelled (signature_results results.now)) }
{
    if !results.is_empty() {
        out.put(b" -> ");
        put_list(out, numbers, results);
    }
}

/// Puts a signature: parameters, results and the convention.
pub(crate) fn put_signature<O: Output>(out: &mut O, numbers: &FuncNumbers, sig: &Sig)
    ensures { Puts O.holds out.old out.new (spelled (signature sig.now)) }
{
    put_in_parentheses(out, numbers, sig.params.as_slice());
    put_results(out, numbers, sig.results.as_slice());
    out.put(b" ");
    out.put(convention_word(sig.conv));
}
