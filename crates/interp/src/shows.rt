//! What is shown at a host call or a sequence point.
ghost use Rattle.std.specs.Prelude.{◌≡◌, ◌∷◌, ◌++◌, Some, map, slice_get, IfOk, OnOk};
ghost use Rattle.std.specs.Option.{option_map};
ghost use Rattle.ir_core.specs.declared.declarations.SlotDecl.{SlotDecl};
ghost use Rattle.ir_semantics.specs.Values.{join};
ghost use Rattle.ir_core.specs.Viewed.{line_of};
ghost use Rattle.ir_semantics.specs.Machine.{User};
ghost use Rattle.ir_semantics.specs.Step as step;
ghost use Rattle.interp.specs.Outcome.{shown_of};
ghost use Rattle.interp.specs.State.{function_at, frame_of, waits_of, shows_if, some_if};

use crate::outcome::Shown;
use crate::state::{Frame, Program, Wait};
use byte_store::ShowErr;
use debug_tags::Tag;
use ir_core::{InstData, List, Slot};
use std::alloc::{AllocError, Global};

/// The size of a slot of the function at a place.
pub fn slot_size(program: &Program, at: usize, slot: Slot) -> Option<u32>
    ensures { option_map (λ (d : SlotDecl). d.size) (slice_get (function_at program.now.module.now at).slots slot)
        ≡ result }
{
    let module = program.module;
    if at >= module.len() {
        return None;
    }
    let slots = module.func(at).slots();
    let number = slot.number() as usize;
    if number >= slots.len() {
        return None;
    }
    let decl = slots[number];
    Some(decl.size)
}

/// Appends what a tag shows in a frame. False where a byte of its slot is unwritten, or there is no such slot.
fn show_tag(
    program: &Program,
    frame: &Frame,
    tag: Tag,
    out: &mut Vec<Shown>,
) -> Result<bool, AllocError>
    ensures { IfOk result (λ b. some_if b (map shown_of out.new.items)
        ≡ join (Some (map shown_of out.old.items)) (step.shown_tag (frame_of program.now.module.now frame.now) tag)) }
{
    match tag {
        Tag::User(number) => {
            out.push(Shown::User(number))?;
            Ok(true)
        }
        Tag::Slot(number) => {
            let Some(size) = slot_size(program, frame.at, Slot::new(number)) else {
                return Ok(false);
            };
            match frame.slots.shown(number, size) {
                Ok(bytes) => {
                    out.push(Shown::Bytes(List::from_vec(bytes)))?;
                    Ok(true)
                }
                Err(ShowErr::Unwritten) => Ok(false),
                Err(ShowErr::NoMemory) => Err(AllocError),
            }
        }
    }
}

/// Appends what a frame shows at a line: the numbers in front of its tags, then the line's tags. False where a byte of
/// a shown slot is unwritten.
fn show_frame(
    program: &Program,
    frame: &Frame,
    line: &InstData,
    out: &mut Vec<Shown>,
) -> Result<bool, AllocError>
    ensures { IfOk result (λ b. some_if b (map shown_of out.new.items)
        ≡ join (Some (map shown_of out.old.items))
        (join (Some (map User frame.now.extra.items))
        (step.shown_tags (frame_of program.now.module.now frame.now) line.now.tags))) }
{
    show_numbers(frame.extra.as_slice(), out)?;
    let shown = show_tags(program, frame, line.tags.list(), out)?;
    Ok(shown)
}

/// Appends numbers of the user's.
fn show_numbers(numbers: &[u32], out: &mut Vec<Shown>) -> Result<(), AllocError>
    ensures { OnOk result (map shown_of out.new.items ≡ map shown_of out.old.items ++ map User numbers.now) }
{
    'numbers: for number in numbers {
        out.push(Shown::User(*number))?;
    }
    Ok(())
}

/// Appends what tags show in a frame. False where a byte of a shown slot is unwritten.
fn show_tags(
    program: &Program,
    frame: &Frame,
    tags: &[Tag],
    out: &mut Vec<Shown>,
) -> Result<bool, AllocError>
    ensures { IfOk result (λ b. some_if b (map shown_of out.new.items)
        ≡ join (Some (map shown_of out.old.items))
        (step.shown_tags (frame_of program.now.module.now frame.now) tags.now)) }
{
    'tags: for tag in tags {
        if !show_tag(program, frame, *tag, out)? {
            return Ok(false);
        }
    }
    Ok(true)
}

/// What is shown at a line of the frame on top: what the frames show that wait below it, from the lowest on, then its
/// own. None where a byte of a shown slot is unwritten.
pub fn show<'m>(
    alloc: Global,
    program: &Program<'m>,
    top: &Frame<'m>,
    below: &[Wait<'m>],
    line: &InstData,
) -> Result<Option<Vec<Shown>>, AllocError>
    ensures { IfOk result
        (λ o. shows_if o
        ≡ step.shown (record { line = line_of line.now; frame = frame_of program.now.module.now top.now }
        ∷ waits_of program.now.module.now below.now)) }
{
    let mut out = Vec::new(alloc);
    'waits: for wait in below {
        if !show_frame(program, &wait.frame, wait.line, &mut out)? {
            return Ok(None);
        }
    }
    if !show_frame(program, top, line, &mut out)? {
        return Ok(None);
    }
    Ok(Some(out))
}
