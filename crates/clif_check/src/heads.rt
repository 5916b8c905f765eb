//! Texts that are checked while they are read: of the functions only their heads stay in memory.
ghost use Rattle.std.specs.Prelude.{◌≡◌, IfErr, IfOk, IfSome};
ghost use Rattle.clif_check.specs.Faults.{IsFault};
ghost use Rattle.clif_check.specs.Heads.{IsAcceptedHeads};
ghost use Rattle.clif_lex.specs.declared.faults.TextErr.TheVariants as errors;

use crate::checking::check_text_alone;
use crate::declarations::declare_all;
use crate::parts::Part;
use crate::stretches::read_parts;
use clif_lex::TextErr;
use ir_check::Checked;
use ir_core::Heads;
use read_workers::STRETCH;
use std::alloc::Global;
use std::thread::Threads;

/// The heads of the functions of an accepted text, checked by so many workers at once, by stretches of this size.
/// `None` where it is not accepted, where it cannot be read so, or memory runs out.
fn check_stretches<R: Threads + Sync>(
    rt: &R,
    alloc: Global,
    text: &[u8],
    workers: usize,
    size: usize,
) -> Option<Heads>
    ensures { IfSome result (λ heads. IsAcceptedHeads text.now heads) }
{
    let functions = read_parts(rt, alloc, text, workers, size, Part::Head)?;
    let Ok(Some(heads)) = Heads::of_functions(alloc, functions) else {
        return None;
    };
    if !declare_all(rt, alloc, &heads, workers) {
        return None;
    }
    Some(heads)
}

/// The functions of an accepted module, of which heads are enough. Only want of memory refuses.
fn take_functions(alloc: Global, checked: Checked) -> Result<Heads, TextErr>
    ensures functions { IfOk result (λ heads. heads ≡ checked) }
    ensures memory { IfErr result (λ e. e ≡ errors.NoMemory) }
{
    match Heads::of_functions(alloc, checked.into_module().into_functions()) {
        Ok(Some(heads)) => Ok(heads),
        _ => Err(TextErr::NoMemory),
    }
}

/// The heads of the functions of the accepted module that a text is, checked by so many workers. Of a long text each
/// function is checked as soon as it is read, and then its body is let go (of a short one bodies may stay): so memory
/// is needed for the text, for the heads, and for a stretch and a function of each worker. All stages take time linear
/// in the text, but for logarithms. A text that is not accepted, and one in which many callees of a function share a
/// long signature, is read again by the calling thread alone, which keeps all bodies.
///
/// # Errors
///
/// The first fault of the text, as `check_text` gives it.
pub fn check_heads<R: Threads + Sync>(
    rt: &R,
    alloc: Global,
    text: &[u8],
    workers: usize,
) -> Result<Heads, TextErr>
    ensures accepted { IfOk result (λ heads. IsAcceptedHeads text.now heads) }
    ensures fault { IfErr result (λ e. IsFault text.now e) }
{
    if text.len() / 2 >= STRETCH {
        if let Some(heads) = check_stretches(rt, alloc, text, workers, STRETCH) {
            return Ok(heads);
        }
    }
    match check_text_alone(alloc, text) {
        Ok(checked) => take_functions(alloc, checked),
        Err(err) => Err(err),
    }
}
