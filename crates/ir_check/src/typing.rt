//! TypeMismatch at one instruction.
ghost use Rattle.std.specs.Prelude.{◌≡◌, ◌<◌, ◌&&◌, [], ◌∷◌, None, length, drop, slice_get};
ghost use Rattle.clk_num.specs.Rows.{row};
ghost use Rattle.clk_num.specs.Views.{data_of};
ghost use Rattle.ir_core.specs.Forms.{controlling};
ghost use Rattle.ir_core.specs.Lists.{Below};
ghost use Rattle.ir_core.specs.Lookup.{and_then, param_types};
ghost use Rattle.ir_core.specs.Module.{Const, Pure, PureImm, Load, Store};
ghost use Rattle.ir_core.specs.Sound.{IsSound, LineInRange, counts_of};
ghost use Rattle.std.specs.List.{list_all};
ghost use Rattle.ir_core.specs.Signatures.{same_type};
ghost use Rattle.ir_core.specs.Uses.{arg_values_used, blocks_used, values_used, targets};
ghost use Rattle.ir_core.specs.declared.signatures.Ty.TheVariants.{I64};
ghost use Rattle.ir_core.specs.Viewed.{line_of, instruction_of};
ghost use Rattle.ir_semantics.specs.TypeRules.{type_at, widths_of_values};
ghost use Rattle.ir_check.specs.RowTypes.{widths_of_row};
ghost use Rattle.ir_check.specs.Twins.{have_types, is_type, simple_types, by_value, same_list, some_and, target_types};
ghost use Rattle.ir_check.specs.Twins.{types};

use crate::calls::{callee_sig, callee_sig_ref, named_sig};
use crate::forms::{
    find_access_suffix, find_access_type, has_access_form, has_store_form, have_flags_form,
    is_in_range, is_same_width, takes_immediate,
};
use crate::row_types::{RowTypes, find_row_of_one, find_row_of_three, find_row_of_two};
use crate::types::{
    has_one_type, has_row_types, has_target_types, have_param_types, have_target_types,
    is_same_suffix,
};
use clk_num::{Bits, Op, Width};
use ir_core::{Access, BlockCall, Flags, Func, Inst, InstData, Sig, SigRef, Ty, Value};
use sig_numbers::FuncSigs;

/// A constant has no suffix, and one result of its type.
fn const_has_types(func: &Func, added: &InstData, bits: &Bits) -> bool
    requires line { LineInRange (counts_of func.now.function) (line_of added.now) }
    ensures { result ≡ simple_types func.now.function (line_of added.now) (Const (data_of bits.now)) }
{
    is_same_suffix(added.ty, None)
        && !is_same_width(bits.width(), Width::W128)
        && is_in_range(bits)
        && has_one_type(func, added.results.as_slice(), Ty::of_width(bits.width()))
}

/// The types of the results of an operation on these values.
fn find_row(func: &Func, op: Op, args: &[Value]) -> Option<RowTypes>
    requires inside { Below (length func.now.function.types) args.now }
    ensures { widths_of_row result ≡ and_then (widths_of_values func.now.function args.now) (row op) }
{
    match args {
        [a] => find_row_of_one(op, func.ty(*a).width()),
        [a, b] => find_row_of_two(op, func.ty(*a).width(), func.ty(*b).width()),
        [a, b, c] => find_row_of_three(
            op,
            func.ty(*a).width(),
            func.ty(*b).width(),
            func.ty(*c).width(),
        ),
        _ => None,
    }
}

/// The type of the operand that gives a suffix that may be left out.
fn find_suffix(func: &Func, op: Op, args: &[Value]) -> Option<Ty>
    requires inside { Below (length func.now.function.types) args.now }
    ensures { result ≡ type_at func.now.function (controlling op args.now) }
{
    let value = match op {
        Op::Select => {
            if 1 < args.len() {
                args[1]
            } else {
                return None;
            }
        }
        Op::Uextend(_) | Op::Sextend(_) | Op::Ireduce(_) => return None,
        _ => {
            if 0 < args.len() {
                args[0]
            } else {
                return None;
            }
        }
    };
    Some(func.ty(value))
}

/// An operation with an immediate of the operand's type.
fn immediate_has_types(func: &Func, added: &InstData, op: Op, arg: Value, imm: &Bits) -> bool
    requires line { LineInRange (counts_of func.now.function) (line_of added.now) }
    requires inside { arg < length func.now.function.types }
    ensures { result ≡ simple_types func.now.function (line_of added.now) (PureImm op arg (data_of imm.now)) }
{
    let ty = func.ty(arg);
    takes_immediate(op)
        && is_in_range(imm)
        && (is_same_suffix(added.ty, Some(ty))
            && is_same_width(imm.width(), ty.width())
            && has_row_types(
                func,
                added.results.as_slice(),
                find_row_of_two(op, ty.width(), imm.width()),
            ))
}

/// A load from an address, of the type of its access.
fn load_has_types(
    func: &Func,
    added: &InstData,
    access: Access,
    flags: Flags,
    address: Value,
    offset: i32,
) -> bool
    requires line { LineInRange (counts_of func.now.function) (line_of added.now) }
    requires inside { address < length func.now.function.types }
    ensures { result ≡ simple_types func.now.function (line_of added.now) (Load access flags address offset) }
{
    is_same_suffix(added.ty, find_access_suffix(access))
        && have_flags_form(flags)
        && has_access_form(access)
        && func.ty(address).is(Ty::I64)
        && has_one_type(func, added.results.as_slice(), find_access_type(access))
}

/// A store to an address, of the type of the value.
fn store_has_types(
    func: &Func,
    added: &InstData,
    narrow: Option<u8>,
    flags: Flags,
    value: Value,
    address: Value,
    offset: i32,
) -> bool
    requires value { value < length func.now.function.types }
    requires address { address < length func.now.function.types }
    ensures { result ≡ simple_types func.now.function (line_of added.now) (Store narrow flags value address offset) }
{
    let ty = func.ty(value);
    have_flags_form(flags)
        && func.ty(address).is(Ty::I64)
        && (is_same_suffix(added.ty, Some(ty)) && has_store_form(narrow, ty))
}

/// An operation on values of the types of one of its rows.
fn pure_has_types(func: &Func, added: &InstData, op: Op, args: &[Value]) -> bool
    requires line { LineInRange (counts_of func.now.function) (line_of added.now) }
    requires inside { Below (length func.now.function.types) args.now }
    ensures { result ≡ simple_types func.now.function (line_of added.now) (Pure op args.now) }
{
    has_row_types(func, added.results.as_slice(), find_row(func, op, args))
        && is_same_suffix(added.ty, find_suffix(func, op, args))
}

/// No suffix, one result of this type.
fn gives_type(func: &Func, added: &InstData, ty: Ty) -> bool
    requires line { LineInRange (counts_of func.now.function) (line_of added.now) }
    ensures { result ≡ (is_type added.now.ty None && have_types func.now.function added.now.results (ty ∷ [])) }
{
    is_same_suffix(added.ty, None) && has_one_type(func, added.results.as_slice(), ty)
}

/// The suffix is the value's type.
fn names_type(func: &Func, added: &InstData, value: Value) -> bool
    requires inside { value < length func.now.function.types }
    ensures { result ≡ by_value func.now.function (line_of added.now) value }
{
    is_same_suffix(added.ty, Some(func.ty(value)))
}

/// No suffix, and arguments of the signature's types.
fn passes_types(func: &Func, added: &InstData, sig: &Sig, args: &[Value]) -> bool
    requires inside { Below (length func.now.function.types) args.now }
    ensures { result
        ≡ (is_type added.now.ty None && have_types func.now.function args.now (param_types sig.now.params)) }
{
    is_same_suffix(added.ty, None) && have_param_types(func, args, sig.params.as_slice())
}

/// A branch with no suffix but the value's type, whose targets' arguments have the types of the parameters.
fn branch_has_types(func: &Func, inst: &Inst) -> bool
    requires sound { IsSound func.now.function }
    requires blocks { Below (length func.now.function.blocks) (blocks_used (instruction_of inst.now)) }
    requires values { Below (length func.now.function.types) (values_used (instruction_of inst.now)) }
    ensures { result ≡ list_all (target_types func.now.function [] []) (targets (instruction_of inst.now)) }
{
    have_target_types(func, &[], inst, 0)
}

/// The targets of a `try_call`: the normal one with the call's results, the others with an exception's payloads.
fn try_has_types(func: &Func, sig: &Sig, normal: &BlockCall, inst: &Inst) -> bool
    requires sound { IsSound func.now.function }
    requires blocks { Below (length func.now.function.blocks) (blocks_used (instruction_of inst.now)) }
    requires values { Below (length func.now.function.types) (values_used (instruction_of inst.now)) }
    requires there { normal.now.block < length func.now.function.blocks }
    requires args { Below (length func.now.function.types) (arg_values_used normal.now.args) }
    ensures { result
        ≡ (target_types func.now.function (param_types sig.now.results) [] normal.now
        && list_all (target_types func.now.function [] (I64 ∷ I64 ∷ []))
        (drop 1 (targets (instruction_of inst.now)))) }
{
    has_target_types(func, sig.results.as_slice(), &[], normal)
        && have_target_types(func, &[Ty::I64, Ty::I64], inst, 1)
}

/// TypeMismatch, at one instruction.
pub fn keeps_types(func: &Func, sigs: &FuncSigs<'_>, added: &InstData) -> bool
    requires sound { IsSound func.now.function }
    requires same { sigs.now ≡ func.now.function }
    requires line { LineInRange (counts_of func.now.function) (line_of added.now) }
    ensures { result ≡ types func.now.function (line_of added.now) }
{
    match &added.inst {
        Inst::Nop => is_same_suffix(added.ty, None),
        Inst::SequencePoint => is_same_suffix(added.ty, None),
        Inst::Trap(_) => is_same_suffix(added.ty, None),
        Inst::Const(bits) => const_has_types(func, added, bits),
        Inst::Pure { op, args } => pure_has_types(func, added, *op, args.as_slice()),
        Inst::PureImm { op, arg, imm } => immediate_has_types(func, added, *op, *arg, imm),
        Inst::Load {
            access,
            flags,
            address,
            offset,
        } => { load_has_types(func, added, *access, *flags, *address, *offset) }
        Inst::Store {
            narrow,
            flags,
            value,
            address,
            offset,
        } => { store_has_types(func, added, *narrow, *flags, *value, *address, *offset) }
        Inst::StackLoad { ty, .. } => gives_type(func, added, *ty),
        Inst::StackStore { value, .. } => names_type(func, added, *value),
        Inst::FuncAddr(_) => gives_type(func, added, Ty::I64),
        Inst::Trapz { cond, .. } => names_type(func, added, *cond),
        Inst::Trapnz { cond, .. } => names_type(func, added, *cond),
        Inst::Jump(_) => is_same_suffix(added.ty, None) && branch_has_types(func, &added.inst),
        Inst::Brif { cond, .. } => names_type(func, added, *cond)
            && branch_has_types(func, &added.inst),
        Inst::BrTable { index, .. } => {
            is_same_suffix(added.ty, None)
                && func.ty(*index).is(Ty::I32)
                && branch_has_types(func, &added.inst)
        }
        Inst::Return(values) => {
            is_same_suffix(added.ty, None)
                && have_param_types(func, values.as_slice(), func.sig().results.as_slice())
        }
        Inst::Call { callee, args } => {
            call_has_types(func, added, callee_sig(func, *callee), args.as_slice())
        }
        Inst::CallIndirect { sig, address, args } => {
            func.ty(*address).is(Ty::I64)
                && call_has_types(func, added, named_sig(func, *sig), args.as_slice())
        }
        Inst::ReturnCall { callee, args } => {
            tail_has_types(
                func,
                sigs,
                added,
                callee_sig_ref(func, *callee),
                args.as_slice(),
            )
        }
        Inst::ReturnCallIndirect { sig, address, args } => {
            func.ty(*address).is(Ty::I64)
                && tail_has_types(func, sigs, added, *sig, args.as_slice())
        }
        Inst::TryCall {
            callee,
            args,
            normal,
            ..
        } => {
            let sig = callee_sig(func, *callee);
            passes_types(func, added, sig, args.as_slice())
                && try_has_types(func, sig, normal.get(), &added.inst)
        }
        Inst::TryCallIndirect {
            sig,
            address,
            args,
            normal,
            ..
        } => {
            let sig = named_sig(func, *sig);
            func.ty(*address).is(Ty::I64)
                && passes_types(func, added, sig, args.as_slice())
                && try_has_types(func, sig, normal.get(), &added.inst)
        }
    }
}

/// A call's arguments and results have the types of the signature.
fn call_has_types(func: &Func, added: &InstData, sig: &Sig, args: &[Value]) -> bool
    requires line { LineInRange (counts_of func.now.function) (line_of added.now) }
    requires inside { Below (length func.now.function.types) args.now }
    ensures { result
        ≡ (is_type added.now.ty None
        && (have_types func.now.function args.now (param_types sig.now.params)
        && have_types func.now.function added.now.results (param_types sig.now.results))) }
{
    passes_types(func, added, sig, args)
        && have_param_types(func, added.results.as_slice(), sig.results.as_slice())
}

/// A tail call's arguments have the types of the signature, and the signature's results those of the function's.
fn tail_has_types(
    func: &Func,
    sigs: &FuncSigs<'_>,
    added: &InstData,
    sig: SigRef,
    args: &[Value],
) -> bool
    requires inside { Below (length func.now.function.types) args.now }
    requires same { sigs.now ≡ func.now.function }
    requires there { sig < length func.now.function.sigs }
    ensures { result
        ≡ (is_type added.now.ty None && some_and (slice_get func.now.function.sigs sig)
        (λ s. have_types func.now.function args.now (param_types s.params)
        && same_list same_type (param_types s.results) (param_types func.now.function.sig.results))) }
{
    passes_types(func, added, named_sig(func, sig), args) && sigs.returns_alike(sig)
}
