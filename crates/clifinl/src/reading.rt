//! Reading what a command works on.
ghost use Rattle.std.specs.Prelude.{◌≡◌, ◌≤◌, ℕ, List, Option, IfErr, IfOk, length};
ghost use Rattle.clif_check.specs.Faults.{IsAccepted, IsFault};
ghost use Rattle.clif_check.specs.Heads.{IsAcceptedHeads};
ghost use Rattle.ir_core.specs.Module.{Module};
ghost use Rattle.ir_text.specs.Text.{text_of};
ghost use Rattle.clifinl.specs.Runs.{IsFirstFault, IsPlaceOf, NoText, ReadsWhole, Stopped, Took};

use crate::status::{Refusal, Status};
use canonical_text::{CanonicalText, make_canonical_text};
use clif_check::{check_heads, check_text};
use clif_lex::{Place, TextErr, place};
use clk_flow::{ReadErr, Source, read_whole};
use ir_check::Checked;
use ir_core::Heads;
use std::alloc::Global;
use std::sync::Wait;
use std::thread::Threads;

/// The most bytes that a text may have.
const LIMIT: usize = 67_108_864;

/// A block about as large as the largest of which the C library takes note.
const KEPT: usize = 33_488_896;

/// Has the allocator keep what is let go. The C library gives large blocks back to the system, whose pages are then
/// seen for the first time again, until one as large as this was let go: so it is asked for, and none of its bytes
/// touched. Where there is no such block nothing is lost.
fn keep_room(alloc: Global) {
    let _ = Vec::<u8>::with_capacity(alloc, KEPT);
}

/// The bytes of the source, up to its end.
///
/// # Errors
///
/// The status of a run that stops here.
pub(crate) fn read_input<I: Source>(alloc: Global, input: &mut I) -> Result<Vec<u8>, Status>
    ensures whole { IfOk result (λ bytes. ReadsWhole (I.left input.old) (I.left input.new) bytes.items) }
    ensures stopped { IfErr result (λ status. Stopped NoText (I.left input.old) (I.left input.new)
        (I.faults input.old) (I.faults input.new) status) }
{
    keep_room(alloc);
    match read_whole(alloc, input, LIMIT) {
        Ok(bytes) => Ok(bytes),
        Err(ReadErr::Failed) => Err(Status::ReadFault),
        Err(ReadErr::TooLong) => Err(Status::Refused(Refusal::TooLong)),
        Err(ReadErr::NoMemory) => Err(Status::NoMemory),
    }
}

/// The accepted module of the source's text, read by so many workers.
///
/// # Errors
///
/// The status of a run that stops here.
pub(crate) fn read_module<R: Threads + Wait + Sync, I: Source>(
    rt: &R,
    alloc: Global,
    workers: usize,
    input: &mut I,
) -> Result<Checked, Status>
    ensures read { IfOk result (λ m. Took IsAccepted (I.left input.old) (I.left input.new) m) }
    ensures stopped { IfErr result (λ status. Stopped IsFirstFault (I.left input.old) (I.left input.new)
        (I.faults input.old) (I.faults input.new) status) }
{
    let bytes = match read_input(alloc, input) {
        Ok(bytes) => bytes,
        Err(status) => return Err(status),
    };
    match check_text(rt, alloc, bytes.as_slice(), workers) {
        Ok(checked) => Ok(checked),
        Err(err) => Err(refuse_text(bytes.as_slice(), err)),
    }
}

/// The heads of the functions of the accepted module of the source's text, checked by so many workers.
///
/// # Errors
///
/// The status of a run that stops here.
pub(crate) fn read_heads<R: Threads + Wait + Sync, I: Source>(
    rt: &R,
    alloc: Global,
    workers: usize,
    input: &mut I,
) -> Result<Heads, Status>
    ensures read { IfOk result (λ heads. Took IsAcceptedHeads (I.left input.old) (I.left input.new) heads) }
    ensures stopped { IfErr result (λ status. Stopped IsFirstFault (I.left input.old) (I.left input.new)
        (I.faults input.old) (I.faults input.new) status) }
{
    let bytes = match read_input(alloc, input) {
        Ok(bytes) => bytes,
        Err(status) => return Err(status),
    };
    match check_heads(rt, alloc, bytes.as_slice(), workers) {
        Ok(heads) => Ok(heads),
        Err(err) => Err(refuse_text(bytes.as_slice(), err)),
    }
}

/// The canonical text of the accepted module of the source's text, checked and printed by so many workers.
///
/// # Errors
///
/// The status of a run that stops here.
pub(crate) fn read_canonical_text<R: Threads + Wait + Sync, I: Source>(
    rt: &R,
    alloc: Global,
    workers: usize,
    input: &mut I,
) -> Result<CanonicalText, Status>
    ensures read { IfOk result (λ written. (m : Module)
        × Took IsAccepted (I.left input.old) (I.left input.new) m × (written ≡ text_of m)) }
    ensures stopped { IfErr result (λ status. Stopped IsFirstFault (I.left input.old) (I.left input.new)
        (I.faults input.old) (I.faults input.new) status) }
{
    let bytes = match read_input(alloc, input) {
        Ok(bytes) => bytes,
        Err(status) => return Err(status),
    };
    match make_canonical_text(rt, alloc, bytes.as_slice(), workers) {
        Ok(written) => Ok(written),
        Err(err) => Err(refuse_text(bytes.as_slice(), err)),
    }
}

/// The status of a run whose text is not accepted, by the first fault of the text.
fn refuse_text(text: &[u8], err: TextErr) -> Status
    requires { length text.now ≤ 4294967294 }
    ensures { (before after : Option (List ℕ)) (faults now : ℕ) → ReadsWhole before after text.now
        → IsFault text.now err → Stopped IsFirstFault before after faults now result }
{
    match err {
        TextErr::Fault { kind, spot } => {
            let place = place_of(text, spot);
            Status::Refused(Refusal::Text(kind, place))
        }
        TextErr::NoMemory => Status::NoMemory,
    }
}

/// The place of a byte. Behind the text it is that of the text's end.
pub(crate) fn place_of(text: &[u8], spot: usize) -> Place
    requires { length text.now ≤ 4294967294 }
    ensures { IsPlaceOf text.now spot result }
{
    place(text, spot.min(text.len()))
}
