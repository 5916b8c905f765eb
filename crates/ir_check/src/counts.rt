//! CountMismatch: the numbers of results, arguments, returned values and parameters.
ghost use Rattle.std.specs.Prelude.{◌≡◌, ◌<◌, ◌&&◌, ℕ, Option, Some, None, length, nat_eq};
ghost use Rattle.std.specs.List.{list_all};
ghost use Rattle.ir_core.specs.Lists.{Below};
ghost use Rattle.ir_core.specs.Sound.{IsSound, LineInRange, counts_of};
ghost use Rattle.ir_core.specs.Uses.{targets, blocks_used};
ghost use Rattle.ir_core.specs.Viewed.{line_of, instruction_of};
ghost use Rattle.ir_semantics.specs.CountRules.{op_results};
ghost use Rattle.ir_check.specs.Twins.{arg_counts, target_counts, counts};

use crate::calls::{callee_sig, named_sig};
use avail_flow::target_at;
use clk_num::Op;
use ir_core::{Arg, BlockCall, Func, Inst, InstData, Sig, Value};

/// The number of results of an operation.
fn count_op_results(op: Op) -> usize
    ensures { result ≡ op_results op }
{
    match op {
        Op::UaddOverflow | Op::SaddOverflow | Op::UsubOverflow | Op::SsubOverflow | Op::Isplit => 2,
        _ => 1,
    }
}

/// Whether the number of a `retN` or an `exnN` is one that stands at this branch.
fn counts_arg(arg: Arg, results: Option<usize>) -> bool
    ensures { result ≡ arg_counts results arg }
{
    match arg {
        Arg::Value(_) => true,
        Arg::Ret(i) => match results {
            Some(n) => (i as usize) < n,
            None => true,
        },
        Arg::Exn(i) => i < 2,
    }
}

/// Whether the numbers of these arguments are some that stand at this branch.
fn counts_args(args: &[Arg], results: Option<usize>) -> bool
    ensures { result ≡ list_all (arg_counts results) args.now }
{
    args.iter().all(|arg| counts_arg(*arg, results))
}

/// Whether a target has as many arguments as its block has parameters.
fn counts_target(func: &Func, results: Option<usize>, target: &BlockCall) -> bool
    requires sound { IsSound func.now.function }
    requires there { target.now.block < length func.now.function.blocks }
    ensures { result ≡ target_counts func.now.function results target.now }
{
    let args = target.args.as_slice();
    args.len() == func.params(target.block).len() && counts_args(args, results)
}

/// Whether each target has as many arguments as its block has parameters.
fn counts_targets(func: &Func, results: Option<usize>, inst: &Inst) -> bool
    requires sound { IsSound func.now.function }
    requires there { Below (length func.now.function.blocks) (blocks_used (instruction_of inst.now)) }
    ensures { result ≡ list_all (target_counts func.now.function results) (targets (instruction_of inst.now)) }
{
    let mut i = 0;
    while let Some(target) = target_at(inst, i) {
        if !counts_target(func, results, target) {
            return false;
        }
        i += 1;
    }
    true
}

/// CountMismatch, at one instruction.
pub fn keeps_counts(func: &Func, added: &InstData) -> bool
    requires sound { IsSound func.now.function }
    requires line { LineInRange (counts_of func.now.function) (line_of added.now) }
    ensures { result ≡ counts func.now.function (line_of added.now) }
{
    let results = added.results.as_slice().len();
    match &added.inst {
        Inst::Jump(_) | Inst::Brif { .. } | Inst::BrTable { .. } => {
            results == 0 && counts_targets(func, None, &added.inst)
        }
        Inst::Return(values) => {
            results == 0 && values.as_slice().len() == func.sig().results.as_slice().len()
        }
        Inst::Call { callee, args } => counts_call(
            callee_sig(func, *callee),
            args.as_slice(),
            results,
        ),
        Inst::CallIndirect { sig, args, .. } => {
            counts_call(named_sig(func, *sig), args.as_slice(), results)
        }
        Inst::ReturnCall { callee, args } => {
            counts_tail(func, callee_sig(func, *callee), args.as_slice(), results)
        }
        Inst::ReturnCallIndirect { sig, args, .. } => {
            counts_tail(func, named_sig(func, *sig), args.as_slice(), results)
        }
        Inst::TryCall { callee, args, .. } => {
            let sig = callee_sig(func, *callee);
            args.as_slice().len() == sig.params.as_slice().len()
                && results == 0
                && counts_targets(func, Some(sig.results.as_slice().len()), &added.inst)
        }
        Inst::TryCallIndirect { sig, args, .. } => {
            let sig = named_sig(func, *sig);
            args.as_slice().len() == sig.params.as_slice().len()
                && results == 0
                && counts_targets(func, Some(sig.results.as_slice().len()), &added.inst)
        }
        Inst::Pure { op, .. } | Inst::PureImm { op, .. } => results == count_op_results(*op),
        Inst::Const(_) | Inst::Load { .. } | Inst::StackLoad { .. } | Inst::FuncAddr(_) => results
            == 1,
        Inst::Nop
        | Inst::SequencePoint
        | Inst::Store { .. }
        | Inst::StackStore { .. }
        | Inst::Trap(_)
        | Inst::Trapz { .. }
        | Inst::Trapnz { .. } => results == 0,
    }
}

/// Whether a call has as many arguments and results as the signature.
fn counts_call(sig: &Sig, args: &[Value], results: usize) -> bool
    ensures { result ≡ (nat_eq (length args.now) (length sig.now.params) && nat_eq results (length sig.now.results)) }
{
    args.len() == sig.params.as_slice().len() && results == sig.results.as_slice().len()
}

/// Whether a tail call has as many arguments as the signature, and the signature as many results as the function's.
fn counts_tail(func: &Func, sig: &Sig, args: &[Value], results: usize) -> bool
    ensures { result
        ≡ (nat_eq (length args.now) (length sig.now.params)
        && (nat_eq results 0 && nat_eq (length sig.now.results) (length func.now.function.sig.results))) }
{
    args.len() == sig.params.as_slice().len()
        && (results == 0 && sig.results.as_slice().len() == func.sig().results.as_slice().len())
}
