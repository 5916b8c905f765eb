//! TypeMismatch: the types of arguments, results and parameters, and those that an instruction's form gives.
ghost use Rattle.std.specs.Prelude.{◌≡◌, ◌<◌, ◌&&◌, ℕ, List, [], ◌∷◌, Option, Some, None, length, map, drop};
ghost use Rattle.ir_core.specs.Lists.{Below};
ghost use Rattle.ir_core.specs.Lookup.{param_types, ty_of};
ghost use Rattle.ir_core.specs.Sound.{IsSound};
ghost use Rattle.std.specs.List.{list_all};
ghost use Rattle.ir_core.specs.Uses.{arg_values_used, blocks_used, values_used, targets};
ghost use Rattle.ir_core.specs.Viewed.{instruction_of};
ghost use Rattle.ir_semantics.specs.TypeRules.{arg_type, types_of};
ghost use Rattle.ir_check.specs.Twins.{have_types, is_type, same_types, some_and, target_types};
ghost use Rattle.ir_check.specs.RowTypes.{widths_of_row};

use crate::row_types::RowTypes;
use avail_flow::target_at;
use ir_core::{Arg, BlockCall, Func, Inst, Param, Ty, Value};

/// Whether two types that may be left out are one.
pub fn is_same_suffix(a: Option<Ty>, b: Option<Ty>) -> bool
    ensures { result ≡ is_type a b }
{
    match a {
        Some(t) => match b {
            Some(u) => t.is(u),
            None => false,
        },
        None => b.is_none(),
    }
}

/// Whether these values have the types of these parameters.
pub fn have_param_types(func: &Func, values: &[Value], params: &[Param]) -> bool
    requires inside { Below (length func.now.function.types) values.now }
    ensures { result ≡ have_types func.now.function values.now (param_types params.now) }
{
    if values.len() != params.len() {
        return false;
    }
    for i in 0..values.len() {
        if !func.ty(values[i]).is(params[i].ty) {
            return false;
        }
    }
    true
}

/// Whether there is one result, of this type.
pub fn has_one_type(func: &Func, results: &[Value], ty: Ty) -> bool
    requires inside { Below (length func.now.function.types) results.now }
    ensures { result ≡ have_types func.now.function results.now (ty ∷ []) }
{
    match results {
        [value] => func.ty(*value).is(ty),
        _ => false,
    }
}

/// Whether there are two results, of these types.
fn has_two_types(func: &Func, results: &[Value], first: Ty, second: Ty) -> bool
    requires inside { Below (length func.now.function.types) results.now }
    ensures { result ≡ have_types func.now.function results.now (first ∷ second ∷ []) }
{
    match results {
        [a, b] => func.ty(*a).is(first) && func.ty(*b).is(second),
        _ => false,
    }
}

/// Whether the results are those of a row.
pub fn has_row_types(func: &Func, results: &[Value], row: Option<RowTypes>) -> bool
    requires inside { Below (length func.now.function.types) results.now }
    ensures { result ≡ some_and (widths_of_row row) (λ ws. have_types func.now.function results.now (map ty_of ws)) }
{
    match row {
        None => false,
        Some(RowTypes::One(a)) => has_one_type(func, results, Ty::of_width(a)),
        Some(RowTypes::Two(a, b)) => has_two_types(func, results, Ty::of_width(a), Ty::of_width(b)),
    }
}

/// The type of what stands in a target.
fn find_arg_type(func: &Func, results: &[Param], payloads: &[Ty], arg: Arg) -> Option<Ty>
    requires inside { Below (length func.now.function.types) (arg_values_used (arg ∷ [])) }
    ensures { result ≡ arg_type func.now.function (param_types results.now) payloads.now arg }
{
    match arg {
        Arg::Value(value) => Some(func.ty(value)),
        Arg::Ret(i) => {
            let i = i as usize;
            if i < results.len() {
                Some(results[i].ty)
            } else {
                None
            }
        }
        Arg::Exn(i) => {
            let i = i as usize;
            if i < payloads.len() {
                Some(payloads[i])
            } else {
                None
            }
        }
    }
}

/// Whether what stands in a target has the types of the block's parameters.
fn have_arg_types(
    func: &Func,
    results: &[Param],
    payloads: &[Ty],
    args: &[Arg],
    params: &[Value],
) -> bool
    requires args { Below (length func.now.function.types) (arg_values_used args.now) }
    requires params { Below (length func.now.function.types) params.now }
    ensures { result
        ≡ same_types (map (arg_type func.now.function (param_types results.now) payloads.now) args.now)
        (types_of func.now.function params.now) }
{
    if args.len() != params.len() {
        return false;
    }
    for i in 0..args.len() {
        if !is_same_suffix(
            find_arg_type(func, results, payloads, args[i]),
            Some(func.ty(params[i])),
        ) {
            return false;
        }
    }
    true
}

/// Whether what stands in a target has the types of its block's parameters. `results` and `payloads`: those of the call
/// and of the exception that may stand in it.
pub fn has_target_types(func: &Func, results: &[Param], payloads: &[Ty], target: &BlockCall) -> bool
    requires sound { IsSound func.now.function }
    requires there { target.now.block < length func.now.function.blocks }
    requires args { Below (length func.now.function.types) (arg_values_used target.now.args) }
    ensures { result ≡ target_types func.now.function (param_types results.now) payloads.now target.now }
{
    have_arg_types(
        func,
        results,
        payloads,
        target.args.as_slice(),
        func.params(target.block),
    )
}

/// Whether each target from a place on has the types of its block's parameters.
pub fn have_target_types(func: &Func, payloads: &[Ty], inst: &Inst, from: usize) -> bool
    requires sound { IsSound func.now.function }
    requires blocks { Below (length func.now.function.blocks) (blocks_used (instruction_of inst.now)) }
    requires values { Below (length func.now.function.types) (values_used (instruction_of inst.now)) }
    ensures { result
        ≡ list_all (target_types func.now.function [] payloads.now) (drop from (targets (instruction_of inst.now))) }
{
    let mut i = from;
    while let Some(target) = target_at(inst, i) {
        if !has_target_types(func, &[], payloads, target) {
            return false;
        }
        i += 1;
    }
    true
}
