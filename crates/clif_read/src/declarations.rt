//! Names of functions, and declarations.

ghost use Rattle.std.specs.Prelude.{◌≡◌, ◌<◌, ◌≤◌, length, IfOk};
ghost use Rattle.grammar.specs.Rules.{heads};
ghost use Rattle.clif_words.specs.Terminals.{codes_of};
ghost use Rattle.token_reader.specs.Reading.{Gives, same};
ghost use Rattle.clif_read.specs.Declarations as spec;

use crate::raw::{RawCalleeSig, RawDecl, RawFuncName};
use crate::signatures::read_signature;
use clif_words::Class;
use ir_core::Boxed;
use std::alloc::Global;
use token_reader::{RawNumber, Reader, Stop, read_number};

/// `%name`
#[tactic(auto, unfolding(crate::specs::Declarations::text_name_at))]
fn read_text_name(alloc: Global, reader: &mut Reader<'_>) -> Result<RawFuncName, Stop>
    ensures is { Gives same reader.new result (spec.text_name_at reader.old) }
    ensures shorter { IfOk result (λ _. length reader.new < length reader.old) }
{
    let text = reader.take_text(alloc, Class::Name)?;
    Ok(RawFuncName::Text {
        name: text.bytes,
        spot: text.spot,
    })
}

/// `u0:1`
#[tactic(auto, unfolding(crate::specs::Declarations::user_name_at))]
fn read_user_name(reader: &mut Reader<'_>) -> Result<RawFuncName, Stop>
    ensures is { Gives same reader.new result (spec.user_name_at reader.old) }
    ensures shorter { IfOk result (λ _. length reader.new < length reader.old) }
{
    let space = reader.take(Class::UserName)?;
    reader.take(Class::Colon)?;
    let number = read_number(reader)?;
    Ok(RawFuncName::User { space, number })
}

/// The name of a function or of a callee, as `u0:1` or `%name`. Stops as a reader of tokens does.
#[tactic(auto, unfolding(crate::specs::Declarations::func_name_at))]
pub fn read_func_name(alloc: Global, reader: &mut Reader<'_>) -> Result<RawFuncName, Stop>
    ensures is { Gives same reader.new result (spec.func_name_at reader.old) }
    ensures shorter { IfOk result (λ _. length reader.new < length reader.old) }
{
    if reader.next_is(Class::Name) {
        read_text_name(alloc, reader)
    } else {
        read_user_name(reader)
    }
}

/// `, align = 4`
#[tactic(auto, unfolding(crate::specs::Declarations::align_at))]
fn read_align(reader: &mut Reader<'_>) -> Result<RawNumber, Stop>
    ensures is { Gives same reader.new result (spec.align_at reader.old) }
    ensures shorter { IfOk result (λ _. length reader.new < length reader.old) }
{
    reader.take(Class::Comma)?;
    reader.take(Class::Align)?;
    reader.take(Class::Equals)?;
    read_number(reader)
}

#[tactic(auto, unfolding(crate::specs::Declarations::opt_align_at))]
fn read_opt_align(reader: &mut Reader<'_>) -> Result<Option<RawNumber>, Stop>
    ensures is { Gives same reader.new result (spec.opt_align_at reader.old) }
    ensures shorter { IfOk result (λ _. length reader.new ≤ length reader.old) }
{
    if reader.next_is(Class::Comma) {
        Ok(Some(read_align(reader)?))
    } else {
        Ok(None)
    }
}

/// `ss0 = explicit_slot 8, align = 4`
#[tactic(auto, unfolding(crate::specs::Declarations::slot_decl_at))]
fn add_slot_decl(reader: &mut Reader<'_>, decls: &mut Vec<RawDecl>) -> Result<(), Stop>
    ensures is { spec.Adds decls.old.items decls.new.items reader.new result (spec.slot_decl_at reader.old) }
    ensures shorter { IfOk result (λ _. length reader.new < length reader.old) }
{
    let slot = reader.take(Class::Slot)?;
    reader.take(Class::Equals)?;
    reader.take(Class::ExplicitSlot)?;
    let size = read_number(reader)?;
    let align = read_opt_align(reader)?;
    decls.push(RawDecl::Slot { slot, size, align })?;
    Ok(())
}

/// `sig0 = (i64) -> i64 fast`
#[tactic(auto, unfolding(crate::specs::Declarations::sig_decl_at))]
fn add_sig_decl(
    alloc: Global,
    reader: &mut Reader<'_>,
    decls: &mut Vec<RawDecl>,
) -> Result<(), Stop>
    ensures is { spec.Adds decls.old.items decls.new.items reader.new result (spec.sig_decl_at reader.old) }
    ensures shorter { IfOk result (λ _. length reader.new < length reader.old) }
{
    let sig = reader.take(Class::Sig)?;
    reader.take(Class::Equals)?;
    let signature = Boxed::new(alloc, read_signature(alloc, reader)?)?;
    decls.push(RawDecl::Sig { sig, signature })?;
    Ok(())
}

/// Whether there is `colocated`, which is read.
#[tactic(auto, unfolding(crate::specs::Declarations::colocated_at))]
fn read_colocated(reader: &mut Reader<'_>) -> Result<bool, Stop>
    ensures is { Gives same reader.new result (spec.colocated_at reader.old) }
    ensures shorter { IfOk result (λ _. length reader.new ≤ length reader.old) }
{
    if reader.next_is(Class::Colocated) {
        reader.take(Class::Colocated)?;
        Ok(true)
    } else {
        Ok(false)
    }
}

/// The signature of a callee.
#[tactic(auto, unfolding(crate::specs::Declarations::callee_sig_at))]
fn read_callee_sig(alloc: Global, reader: &mut Reader<'_>) -> Result<RawCalleeSig, Stop>
    ensures is { Gives same reader.new result (spec.callee_sig_at reader.old) }
    ensures shorter { IfOk result (λ _. length reader.new < length reader.old) }
{
    if reader.next_is(Class::Sig) {
        Ok(RawCalleeSig::Declared(reader.take(Class::Sig)?))
    } else {
        let signature = Boxed::new(alloc, read_signature(alloc, reader)?)?;
        Ok(RawCalleeSig::Inline(signature))
    }
}

/// `fn0 = colocated %g sig0`
#[tactic(auto, unfolding(crate::specs::Declarations::callee_decl_at))]
fn add_callee_decl(
    alloc: Global,
    reader: &mut Reader<'_>,
    decls: &mut Vec<RawDecl>,
) -> Result<(), Stop>
    ensures is { spec.Adds decls.old.items decls.new.items reader.new result (spec.callee_decl_at reader.old) }
    ensures shorter { IfOk result (λ _. length reader.new < length reader.old) }
{
    let callee = reader.take(Class::Callee)?;
    reader.take(Class::Equals)?;
    let colocated = read_colocated(reader)?;
    let name = read_func_name(alloc, reader)?;
    let sig = read_callee_sig(alloc, reader)?;
    decls.push(RawDecl::Callee {
        callee,
        colocated,
        name,
        sig,
    })?;
    Ok(())
}

/// Puts a declaration behind the others.
#[tactic(auto, unfolding(crate::specs::Declarations::decl_at))]
fn add_decl(alloc: Global, reader: &mut Reader<'_>, decls: &mut Vec<RawDecl>) -> Result<(), Stop>
    ensures is { spec.Adds decls.old.items decls.new.items reader.new result (spec.decl_at reader.old) }
    ensures shorter { IfOk result (λ _. length reader.new < length reader.old) }
{
    if reader.next_is(Class::Slot) {
        add_slot_decl(reader, decls)
    } else if reader.next_is(Class::Sig) {
        add_sig_decl(alloc, reader, decls)
    } else if reader.next_is(Class::Callee) {
        add_callee_decl(alloc, reader, decls)
    } else {
        Err(if reader.next_is(Class::RefusedDecl) {
            Stop::Unsupported
        } else {
            Stop::Syntax
        })
    }
}

/// Whether a declaration begins here, or a word that is refused in its place.
fn begins_decl(reader: &Reader<'_>) -> bool
    ensures { result ≡ heads (codes_of spec.begins_decl) reader.now }
{
    reader.next_is(Class::Slot)
        || reader.next_is_one_of(Class::Sig, Class::Callee, Class::RefusedDecl)
}

/// The declarations of a function.
pub(crate) fn read_decls(alloc: Global, reader: &mut Reader<'_>) -> Result<Vec<RawDecl>, Stop>
    ensures is { Gives (λ x. x.items) reader.new result (spec.decls_at reader.old) }
    ensures shorter { IfOk result (λ _. length reader.new ≤ length reader.old) }
{
    let mut list = Vec::new(alloc);
    'list: while begins_decl(reader) {
        add_decl(alloc, reader, &mut list)?;
    }
    Ok(list)
}
