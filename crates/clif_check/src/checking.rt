//! Texts are read, resolved and checked.
ghost use Rattle.std.specs.Prelude.{◌≡◌, ◌<◌, length, IfErr, IfOk, IfSome};
ghost use Rattle.clif_check.specs.Faults as spec;
ghost use Rattle.clif_check.specs.Faults.{IsAccepted, IsAcceptedRaw, IsFault, IsRawFault};
ghost use Rattle.clif_names.specs.Faults.{NoFault};
ghost use Rattle.clif_meaning.specs.Meaning.{HasBlocks, Means};
ghost use Rattle.clif_meaning.specs.Reads.{alone};
ghost use Rattle.ir_check.specs.Kinds.{rule_of};
ghost use Rattle.ir_check.specs.Refusal.{IsRefusal};

use crate::declarations::declare_all;
use crate::parts::Part;
use crate::stretches::read_parts;
use clif_lex::{TextErr, TextKind};
use clif_read::{RawModule, read_text_alone};
use clif_resolve::{Places, meaning, resolve_func};
use ir_check::{CheckErr, CheckKind, Checked, Rejected, check};
use ir_core::Module;
use read_workers::STRETCH;
use std::alloc::Global;
use std::thread::Threads;

/// The accepted module that a text is, read by so many workers. All stages take time linear in the text, but for
/// logarithms. Of a long text each function is checked as soon as it is read, and its callee declarations at the end;
/// where the text is not accepted, or many callees of a function share a long signature, it is read again by the
/// calling thread alone.
///
/// # Errors
///
/// The first fault of the text: of its tokens and its syntax, then of its names and numbers, then the first rule that
/// it does not keep. An earlier stage over the whole text comes before a later one.
pub fn check_text<R: Threads + Sync>(
    rt: &R,
    alloc: Global,
    text: &[u8],
    workers: usize,
) -> Result<Checked, TextErr>
    ensures accepted { IfOk result (λ m. IsAccepted text.now m) }
    ensures fault { IfErr result (λ e. IsFault text.now e) }
{
    if text.len() / 2 >= STRETCH {
        if let Some(checked) = check_in_stretches(rt, alloc, text, workers) {
            return Ok(checked);
        }
    }
    check_text_alone(alloc, text)
}

/// As `check_text`, by the calling thread alone: for a short text, and for one that is known to have a fault.
///
/// # Errors
///
/// The first fault of the text, as `check_text` gives it.
pub fn check_text_alone(alloc: Global, text: &[u8]) -> Result<Checked, TextErr>
    ensures accepted { IfOk result (λ m. IsAccepted text.now m) }
    ensures fault { IfErr result (λ e. IsFault text.now e) }
{
    match read_text_alone(alloc, text) {
        Ok(raw) => check_raw(alloc, &raw),
        Err(err) => Err(err),
    }
}

/// The accepted module that a text is, read stretch by stretch and checked by so many workers at once. `None` where it
/// is none, where it cannot be read so, or memory runs out.
fn check_in_stretches<R: Threads + Sync>(
    rt: &R,
    alloc: Global,
    text: &[u8],
    workers: usize,
) -> Option<Checked>
    ensures { IfSome result (λ m. IsAccepted text.now m) }
{
    let functions = read_parts(rt, alloc, text, workers, STRETCH, Part::Whole)?;
    let Ok(Some(module)) = Module::of_functions(alloc, functions) else {
        return None;
    };
    if !declare_all(rt, alloc, &module, workers) {
        return None;
    }
    Some(Checked::of_accepted(module))
}

/// The accepted module that a raw module means, each of whose functions has a block. Takes time linear in it, but for
/// logarithms.
///
/// # Errors
///
/// The first fault of its names and numbers, then the first rule that it does not keep.
pub fn check_raw(alloc: Global, raw: &RawModule) -> Result<Checked, TextErr>
    requires { HasBlocks raw.now }
    ensures accepted { IfOk result (λ m. IsAcceptedRaw raw.now m) }
    ensures fault { IfErr result (λ e. IsRawFault raw.now e) }
{
    let module = meaning(alloc, raw)?;
    match check(alloc, module) {
        Ok(checked) => Ok(checked),
        Err(rejected) => Err(rule_fault(alloc, raw, rejected)),
    }
}

/// What `check_raw` gives for the raw module that has the function of this number alone. Takes time linear in the
/// function, but for logarithms.
///
/// # Errors
///
/// As `check_raw`, for that raw module: no other function is looked at.
pub fn check_func(alloc: Global, raw: &RawModule, func: usize) -> Result<Checked, TextErr>
    requires blocks { HasBlocks raw.now }
    requires there { func < length raw.now.functions }
    ensures accepted { IfOk result (λ m. IsAcceptedRaw (alone raw.now func) m) }
    ensures fault { IfErr result (λ e. IsRawFault (alone raw.now func) e) }
{
    let (module, places) = resolve_func(alloc, raw, func)?;
    match check(alloc, module) {
        Ok(checked) => Ok(checked),
        Err(rejected) => Err(text_err(rejected.err, &places)),
    }
}

/// Why a raw module is refused whose module is rejected. Where its items stand is found only now.
fn rule_fault(alloc: Global, raw: &RawModule, rejected: Rejected) -> TextErr
    requires free { NoFault raw.now }
    requires means { Means raw.now rejected.«module» }
    requires refused { IsRefusal rejected.«module» rejected.err }
    ensures { IsRawFault raw.now result }
{
    match Places::of(alloc, raw) {
        Ok(places) => text_err(rejected.err, &places),
        Err(_) => TextErr::NoMemory,
    }
}

/// Why the text of a module is refused that is refused so.
fn text_err(err: CheckErr, places: &Places) -> TextErr
    requires { spec.HasSpot places.now err }
    ensures { spec.IsErrOf places.now err result }
{
    match err {
        CheckErr::Fault { kind, func, item } => TextErr::Fault {
            kind: text_kind(kind),
            spot: places.spot(func, item),
        },
        CheckErr::NoMemory => TextErr::NoMemory,
    }
}

/// The kind of fault of a text that does not keep the rule.
fn text_kind(kind: CheckKind) -> TextKind
    ensures { result ≡ spec.kind_of (rule_of kind) }
{
    match kind {
        CheckKind::NoTerminator => TextKind::NoTerminator,
        CheckKind::EntryTarget => TextKind::EntryTarget,
        CheckKind::CountMismatch => TextKind::CountMismatch,
        CheckKind::TypeMismatch => TextKind::TypeMismatch,
        CheckKind::Convention => TextKind::Convention,
        CheckKind::SignatureMismatch => TextKind::SignatureMismatch,
        CheckKind::SlotRange => TextKind::SlotRange,
        CheckKind::TagPlace => TextKind::TagPlace,
        CheckKind::NotAvailable => TextKind::NotAvailable,
    }
}
