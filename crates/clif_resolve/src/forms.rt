//! The types that the forms of instructions give to results.
ghost use Rattle.std.specs.Prelude.{◌≡◌, slice_get};
ghost use Rattle.clk_num.specs.Width as widths;
ghost use Rattle.ir_core.specs.Forms as forms;
ghost use Rattle.ir_core.specs.Lookup.{signature_of, ty_of, width_of};
ghost use Rattle.ir_core.specs.Module.{Direct, Function};
ghost use Rattle.ir_text.specs.Writable.{conversion, result_types};
ghost use Rattle.clif_lines.specs.WordRenaming.{renaming};
ghost use Rattle.clif_resolve.specs.FormTypes as spec;
ghost use Rattle.clif_meaning.specs.Instructions.{instruction_of, known};
ghost use Rattle.clif_meaning.specs.Meaning.{form_types, operation_types, sig_results};

use clif_insts::{RawInst, RawOperands};
use clif_lines::{WordNumbers, access, operation};
use clif_words::Opcode;
use clk_num::Op;
use ir_core::{Access, Func, FuncRef, SigRef, Ty};

/// The types that a form gives to its results, in order.
#[derive(Drop)]
pub(crate) enum FormTypes {
    None,
    One(Ty),
    Two(Ty, Ty),
    /// Those of the results of the function's signature of this number.
    Signature(SigRef),
}

impl FormTypes {
    /// The type at a place, and `i8` past all.
    pub(crate) fn at(&self, func: &Func, place: usize) -> Ty
        ensures { result ≡ known (slice_get (spec.listed func.now.function self.now) place) }
    {
        match self {
            FormTypes::None => Ty::I8,
            FormTypes::One(first) => match place {
                0 => *first,
                _ => Ty::I8,
            },
            FormTypes::Two(first, second) => match place {
                0 => *first,
                1 => *second,
                _ => Ty::I8,
            },
            FormTypes::Signature(sig) => sig_result(func, *sig, place),
        }
    }
}

/// The type of a signature's result at a place, and `i8` where there is none.
fn sig_result(func: &Func, sig: SigRef, place: usize) -> Ty
    ensures { result ≡ known (slice_get (sig_results (slice_get func.now.function.sigs sig)) place) }
{
    match func.sigs().get(sig.number() as usize) {
        None => Ty::I8,
        Some(sig) => match sig.results.as_slice().get(place) {
            None => Ty::I8,
            Some(param) => param.ty,
        },
    }
}

/// The type of twice the width, up to the widest.
fn double(ty: Ty) -> Ty
    ensures { result ≡ ty_of (widths.double (width_of ty)) }
{
    match ty {
        Ty::I8 => Ty::I16,
        Ty::I16 => Ty::I32,
        Ty::I32 => Ty::I64,
        Ty::I64 | Ty::I128 => Ty::I128,
    }
}

/// The type of half the width, down to the narrowest.
fn half(ty: Ty) -> Ty
    ensures { result ≡ ty_of (widths.half (width_of ty)) }
{
    match ty {
        Ty::I8 | Ty::I16 => Ty::I8,
        Ty::I32 => Ty::I16,
        Ty::I64 => Ty::I32,
        Ty::I128 => Ty::I64,
    }
}

/// The types of the results of an operation on values of a type.
fn plain_results(op: Op, ty: Ty) -> FormTypes
    ensures { (f : Function) → spec.listed f result ≡ result_types op ty }
{
    match op {
        Op::UaddOverflow | Op::SaddOverflow | Op::UsubOverflow | Op::SsubOverflow => {
            FormTypes::Two(ty, Ty::I8)
        }
        Op::Icmp(_) => FormTypes::One(Ty::I8),
        Op::Iconcat => FormTypes::One(double(ty)),
        Op::Isplit => FormTypes::Two(half(ty), half(ty)),
        _ => FormTypes::One(ty),
    }
}

/// The types of an operation's results. A conversion gives the type that it names.
fn operation_results(op: Op, ty: Ty) -> FormTypes
    ensures { (f : Function) → spec.listed f result ≡ operation_types op ty (conversion op) }
{
    match op {
        Op::Uextend(width) | Op::Sextend(width) | Op::Ireduce(width) => {
            FormTypes::One(Ty::of_width(width))
        }
        _ => plain_results(op, ty),
    }
}

/// The type that a load gives.
fn access_type(access: Access) -> Ty
    ensures { result ≡ forms.access_type access }
{
    match access {
        Access::Full(ty) | Access::Uload(ty, _) | Access::Sload(ty, _) => ty,
    }
}

/// The types of a callee's results, none where the function has no such callee.
fn callee_results(func: &Func, callee: FuncRef) -> FormTypes
    ensures { spec.listed func.now.function result ≡ sig_results (signature_of func.now.function (Direct callee)) }
{
    match func.callees().get(callee.number() as usize) {
        None => FormTypes::None,
        Some(callee) => FormTypes::Signature(callee.sig),
    }
}

/// The types that a call gives, none where it is a tail call.
fn unless_tail(opcode: Opcode, results: FormTypes) -> FormTypes
    ensures { (f : Function) → spec.listed f result ≡ spec.unless_tail opcode (spec.listed f results) }
{
    match opcode {
        Opcode::ReturnCall | Opcode::ReturnCallIndirect => FormTypes::None,
        _ => results,
    }
}

/// The types that an instruction's form gives to its results in the function, `ty` being the instruction's type.
pub(crate) fn form_results(
    func: &Func,
    words: &WordNumbers<'_>,
    ty: Ty,
    inst: &RawInst,
) -> FormTypes
    ensures { spec.listed func.now.function result
        ≡ form_types func.now.function
        (instruction_of (renaming words.now) inst.now.opcode.kind ty inst.now.operands) ty }
{
    let opcode = inst.opcode.kind;
    match &inst.operands {
        RawOperands::Number(_) | RawOperands::StackLoad { .. } => FormTypes::One(ty),
        RawOperands::Unary(_) | RawOperands::Binary(_, _) | RawOperands::Ternary(_, _, _) => {
            operation_results(operation(opcode, ty), ty)
        }
        RawOperands::Compare(_, _, _) | RawOperands::CompareImm(_, _, _) => {
            FormTypes::One(Ty::I8)
        }
        RawOperands::BinaryImm(_, _) => plain_results(operation(opcode, ty), ty),
        RawOperands::Load { .. } => FormTypes::One(access_type(access(opcode, ty))),
        RawOperands::FuncAddr(_) => FormTypes::One(Ty::I64),
        RawOperands::Call { callee, .. } => {
            unless_tail(opcode, callee_results(func, words.callee(*callee)))
        }
        RawOperands::CallIndirect { sig, .. } => {
            unless_tail(opcode, FormTypes::Signature(words.sig(*sig)))
        }
        _ => FormTypes::None,
    }
}
