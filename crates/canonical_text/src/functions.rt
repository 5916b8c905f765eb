//! Functions of a text, printed as soon as they are read and checked.
ghost use Rattle.std.specs.Prelude.{◌≡◌, ◌≢◌, [], ◌∷◌, List, IfSome, OnOk};
ghost use Rattle.ir_core.specs.Edits.{head_of};
ghost use Rattle.ir_core.specs.Lists.{Each};
ghost use Rattle.ir_core.specs.Sound.{IsWhole};
ghost use Rattle.ir_text.specs.TextTree.{spelled};
ghost use Rattle.ir_text.specs.Text.{function_text_of, more_functions};
ghost use Rattle.clif_check.specs.Declarations.{KeepsOwnRules};
ghost use Rattle.text_output.specs.Output.{Start, Puts};
ghost use Rattle.canonical_text.specs.Printed.{PutsOfTokens, PutsPrinted};

use clif_numbers::FuncNumbers;
use clif_print::put_function;
use clif_read::{RawFunction, read_function};
use clif_resolve::meant_function;
use clif_words::Class;
use ir_check::keeps_own_rules;
use ir_core::{Boxed, Func, Module};
use std::alloc::{AllocError, Global};
use text_output::Output;
use token_reader::Reader;

/// Puts an empty line and behind it a whole function. Only `AllocError` refuses.
fn put_further_function<O: Output>(
    out: &mut O,
    numbers: &mut FuncNumbers,
    func: &Func,
) -> Result<(), AllocError>
    requires { IsWhole func.now.function }
    ensures { OnOk result (Puts O.holds out.old out.new (10 ∷ function_text_of func.now.function)) }
{
    numbers.renumber(func)?;
    out.put(b"\n");
    put_function(out, func, numbers);
    Ok(())
}

/// Puts the functions of a module, each behind an empty line. Only `AllocError` refuses.
pub(crate) fn put_module<O: Output>(
    out: &mut O,
    alloc: Global,
    module: &Module,
) -> Result<(), AllocError>
    ensures { OnOk result (Puts O.holds out.old out.new (spelled (more_functions «module».now))) }
{
    let mut numbers = FuncNumbers::new(alloc);
    for i in 0..module.len() {
        put_further_function(out, &mut numbers, module.func(i))?;
    }
    Ok(())
}

/// Puts a whole function behind an empty line, once it is known to keep every rule but that on its callee declarations.
/// Its body is let go, and its head is left. `None` where it breaks such a rule, or memory runs out.
fn put_checked<O: Output>(
    out: &mut O,
    alloc: Global,
    numbers: &mut FuncNumbers,
    func: Func,
) -> Option<Boxed<Func>>
    requires { IsWhole func.function }
    ensures own { IfSome result (λ head. KeepsOwnRules func.function) }
    ensures head { IfSome result (λ head. head.function ≡ head_of func.function) }
    ensures text { IfSome result (λ head. Puts O.holds out.old out.new (10 ∷ function_text_of func.function)) }
{
    if !keeps_own_rules(alloc, &func) {
        return None;
    }
    let Ok(()) = put_further_function(out, numbers, &func) else {
        return None;
    };
    let mut head = func;
    head.drop_body();
    match Boxed::new(alloc, head) {
        Ok(head) => Some(head),
        Err(_) => None,
    }
}

/// Puts the function that is meant, and answers its head. `None` where it has a fault of names or numbers or breaks a
/// rule of its own, or memory runs out.
fn put_meant<O: Output>(
    out: &mut O,
    alloc: Global,
    numbers: &mut FuncNumbers,
    raw: &RawFunction,
) -> Option<Boxed<Func>>
    requires { raw.now.blocks ≢ [] }
    ensures { IfSome result (λ head. PutsPrinted O.holds out.old out.new (raw.now ∷ []) (head ∷ [])) }
{
    let Ok(Some(func)) = meant_function(alloc, raw) else {
        return None;
    };
    put_checked(out, alloc, numbers, func)
}

/// Puts the functions that these mean, and answers their heads. `None` where one of them is not put.
pub(crate) fn put_all_meant<O: Output>(
    out: &mut O,
    alloc: Global,
    raws: &[RawFunction],
) -> Option<Vec<Boxed<Func>>>
    requires { Each (λ r. r.blocks ≢ []) raws.now }
    ensures { IfSome result (λ heads. PutsPrinted O.holds out.old out.new raws.now heads.items) }
{
    let mut heads = Vec::new(alloc);
    let mut numbers = FuncNumbers::new(alloc);
    for raw in raws {
        let head = put_meant(out, alloc, &mut numbers, raw)?;
        if heads.push(head).is_err() {
            return None;
        }
    }
    Some(heads)
}

/// Puts the functions of all the tokens that are left, and answers their heads. Each function is let go, with its raw
/// one, before the next is read. `None` where anything else stands there, or one of them is not put.
pub(crate) fn put_tokens<O: Output>(
    out: &mut O,
    alloc: Global,
    reader: &mut Reader<'_>,
) -> Option<Vec<Boxed<Func>>>
    ensures { IfSome result (λ heads. PutsOfTokens O.holds out.old out.new reader.old heads.items) }
{
    let mut heads = Vec::new(alloc);
    let mut numbers = FuncNumbers::new(alloc);
    'functions: while reader.next_is(Class::Function) {
        let Ok(raw) = read_function(alloc, reader) else {
            return None;
        };
        let head = put_meant(out, alloc, &mut numbers, &raw)?;
        if heads.push(head).is_err() {
            return None;
        }
    }
    if !reader.is_at_end() {
        return None;
    }
    Some(heads)
}
