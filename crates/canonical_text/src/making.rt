//! The canonical text of an accepted text.
ghost use Rattle.std.specs.Prelude.{◌≡◌, IfErr, IfOk};
ghost use Rattle.ir_text.specs.Text.{text_of};
ghost use Rattle.clif_check.specs.Faults.{IsFault};
ghost use Rattle.clif_lex.specs.declared.faults.TextErr.TheVariants as errors;
ghost use Rattle.canonical_text.specs.Accepted.{IsAcceptedText};

use crate::functions::put_module;
use crate::stretches::print_stretches;
use crate::written::CanonicalText;
use clif_check::check_text_alone;
use clif_lex::TextErr;
use ir_core::Module;
use read_workers::STRETCH;
use std::alloc::{AllocError, Global};
use std::thread::Threads;
use text_output::MemoryOutput;

/// The canonical text of a module, printed in one piece. Only `AllocError` refuses.
fn print_module(alloc: Global, module: &Module) -> Result<CanonicalText, AllocError>
    ensures { IfOk result (λ written. written ≡ text_of «module».now) }
{
    let mut out = MemoryOutput::new(alloc);
    put_module(&mut out, alloc, module)?;
    let text = out.finish()?;
    let mut texts = Vec::new(alloc);
    texts.push(text)?;
    Ok(CanonicalText::of_texts(texts, None))
}

/// As `print_module`. Only want of memory refuses.
fn print_alone(alloc: Global, module: &Module) -> Result<CanonicalText, TextErr>
    ensures text { IfOk result (λ written. written ≡ text_of «module».now) }
    ensures memory { IfErr result (λ e. e ≡ errors.NoMemory) }
{
    match print_module(alloc, module) {
        Ok(written) => Ok(written),
        Err(_) => Err(TextErr::NoMemory),
    }
}

/// The canonical text of the accepted module that a text is, checked and printed by so many workers. Of a long text
/// each function is printed as soon as it is known to keep its own rules, and then its body is let go: so memory is
/// needed for the text, for what is printed, for the heads, and for a stretch and a function of each worker. A short
/// text is checked and printed by the calling thread alone. All stages take time linear in the text, but for
/// logarithms. A long text that is not accepted is read again by the calling thread alone.
///
/// # Errors
///
/// The first fault of the text, as `check_text` gives it.
pub fn make_canonical_text<R: Threads + Sync>(
    rt: &R,
    alloc: Global,
    text: &[u8],
    workers: usize,
) -> Result<CanonicalText, TextErr>
    ensures accepted { IfOk result (λ written. IsAcceptedText text.now written) }
    ensures fault { IfErr result (λ e. IsFault text.now e) }
{
    if text.len() / 2 >= STRETCH {
        if let Some(written) = print_stretches(rt, alloc, text, workers, STRETCH) {
            return Ok(written);
        }
    }
    match check_text_alone(alloc, text) {
        Ok(checked) => print_alone(alloc, checked.module()),
        Err(err) => Err(err),
    }
}
