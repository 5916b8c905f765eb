//! What is read of names, signatures and declarations.

use crate::modules::read;
use clif_read::{RawAttribute, RawCalleeSig, RawDecl, RawFuncName, RawFunction, RawSignature};
use ir_core::{Conv, Ty};
use std::test::Fail;
use token_reader::{RawName, RawNumber};

const DECLARED: &str = "function %ab(i64 sret uext, i8) -> i16 cold {
    ss3 = explicit_slot 8, align = 4
    sig0 = (i32) -> i64 tail
    fn0 = colocated %g sig0
    fn1 = u2:3() fast
block0:
}
";

/// Whether the name is `%` and these bytes, and the `%` stands at this spot.
fn is_text(name: &RawFuncName, bytes: &[u8], at: usize) -> bool {
    match name {
        RawFuncName::Text { name, spot } => name.as_slice() == bytes && *spot == at,
        RawFuncName::User { .. } => false,
    }
}

/// Whether `DECLARED`'s signature is read.
fn is_first_signature(signature: &RawSignature) -> bool {
    match (signature.params.as_slice(), signature.results.as_slice()) {
        ([first, second], [result]) => {
            let pair: &[RawAttribute] = &[RawAttribute::Sret, RawAttribute::Uext];
            first.ty == Ty::I64
                && first.attributes.as_slice() == pair
                && second.ty == Ty::I8
                && second.attributes.as_slice().is_empty()
                && result.ty == Ty::I16
                && signature.conv == Some(Conv::Cold)
        }
        _ => false,
    }
}

fn name_at(number: u64, spot: usize) -> RawName {
    RawName { number, spot }
}

fn number_at(value: i128, spot: usize) -> RawNumber {
    RawNumber { value, spot }
}

/// Whether it is `ss3 = explicit_slot 8, align = 4`.
fn is_slot(decl: &RawDecl) -> bool {
    match decl {
        RawDecl::Slot { slot, size, align } => {
            *slot == name_at(3, 50) && *size == number_at(8, 70) && *align == Some(number_at(4, 81))
        }
        _ => false,
    }
}

/// Whether it is `fn0 = colocated %g sig0`.
fn is_named_callee(decl: &RawDecl) -> bool {
    match decl {
        RawDecl::Callee {
            callee,
            colocated,
            name,
            sig: RawCalleeSig::Declared(sig),
        } => {
            *callee == name_at(0, 116)
                && *colocated
                && is_text(name, b"g", 132)
                && *sig == name_at(0, 135)
        }
        _ => false,
    }
}

/// Whether it is `fn1 = u2:3() fast`.
fn is_user_callee(decl: &RawDecl) -> bool {
    match decl {
        RawDecl::Callee {
            callee,
            colocated,
            name: RawFuncName::User { space, number },
            sig: RawCalleeSig::Inline(signature),
        } => {
            *callee == name_at(1, 144)
                && !*colocated
                && *space == name_at(2, 150)
                && *number == number_at(3, 153)
                && signature.get().conv == Some(Conv::Fast)
        }
        _ => false,
    }
}

/// Whether the declarations of `DECLARED` are read.
fn has_declarations(function: &RawFunction) -> bool {
    match function.decls.as_slice() {
        [slot, _, named, user] => is_slot(slot) && is_named_callee(named) && is_user_callee(user),
        _ => false,
    }
}

/// Whether the name, the signature and the declarations of `DECLARED`'s one function are read.
fn has_parts(functions: &[RawFunction]) -> Option<(bool, bool, bool)> {
    match functions {
        [function] => Some((
            is_text(&function.name, b"ab", 9),
            is_first_signature(&function.signature),
            has_declarations(function),
        )),
        _ => None,
    }
}

#[test]
fn reads_declarations(rt: HostRuntime) -> Result<(), Fail> {
    let found = read(&rt, rt.alloc(), DECLARED.as_bytes())?;
    let parts = has_parts(found.functions.as_slice());
    assert!(rt; parts == Some((true, true, true)), "read are {parts:?}");
    Ok(())
}
