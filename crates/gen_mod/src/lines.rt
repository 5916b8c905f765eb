//! The instructions of generated functions.
ghost use Rattle.std.specs.Prelude.{◌≡◌, IfOk};
ghost use Rattle.ir_core.specs.Viewed.{instruction_of, line_of};
ghost use Rattle.gen_mod.specs.Shapes as spec;

use clk_num::{Bits, Cc, Op, Width};
use debug_tags::Tags;
use exn_tables::{Entry, Table};
use ir_core::{
    Arg, Block, BlockCall, Boxed, Few, FuncRef, Inst, InstData, List, SigRef, Ty, Value, Values,
};
use std::alloc::{AllocError, Global};

/// An instruction without tags.
fn line(alloc: Global, inst: Inst, ty: Option<Ty>, results: Values) -> InstData
    ensures { line_of result ≡ spec.line (instruction_of inst) ty results }
{
    InstData {
        inst,
        ty,
        results,
        tags: Tags::new(Vec::new(alloc)),
    }
}

/// `vR = iconst.i64 N`
pub(crate) fn iconst(alloc: Global, value: Value, number: u64) -> InstData
    ensures { line_of result ≡ spec.iconst value number }
{
    let bits = Bits {
        width: Width::W64,
        value: u128::from(number),
    };
    line(alloc, Inst::Const(bits), None, Values::one(value))
}

/// `vR = iadd vA, vB`
pub(crate) fn iadd(alloc: Global, value: Value, x: Value, y: Value) -> InstData
    ensures { line_of result ≡ spec.iadd value x y }
{
    let inst = Inst::Pure {
        op: Op::Iadd,
        args: Values::two(x, y),
    };
    line(alloc, inst, Some(Ty::I64), Values::one(value))
}

/// `vR = icmp ult vA, vB`
pub(crate) fn icmp_ult(alloc: Global, value: Value, x: Value, y: Value) -> InstData
    ensures { line_of result ≡ spec.icmp_ult value x y }
{
    let inst = Inst::Pure {
        op: Op::Icmp(Cc::Ult),
        args: Values::two(x, y),
    };
    line(alloc, inst, Some(Ty::I64), Values::one(value))
}

/// `vR = call fnC(vA)`
pub(crate) fn call(alloc: Global, value: Value, callee: FuncRef, arg: Value) -> InstData
    ensures { line_of result ≡ spec.call value callee arg }
{
    let inst = Inst::Call {
        callee,
        args: Values::one(arg),
    };
    line(alloc, inst, None, Values::one(value))
}

/// `return vA`
pub(crate) fn returned(alloc: Global, value: Value) -> InstData
    ensures { line_of result ≡ spec.returned value }
{
    line(
        alloc,
        Inst::Return(Values::one(value)),
        None,
        Values::none(),
    )
}

/// A target that has one argument.
fn to(block: Block, arg: Arg) -> BlockCall
    ensures { result ≡ spec.to block arg }
{
    BlockCall {
        block,
        args: Few::one(arg),
    }
}

/// A target without arguments.
fn to_alone(alloc: Global, block: Block) -> BlockCall
    ensures { result ≡ spec.to_alone block }
{
    BlockCall {
        block,
        args: Few::from_vec(Vec::new(alloc)),
    }
}

/// `brif vA, blockY, blockN`
pub(crate) fn brif(
    alloc: Global,
    cond: Value,
    yes: Block,
    no: Block,
) -> Result<InstData, AllocError>
    ensures { IfOk result (λ line. line_of line ≡ spec.brif cond yes no) }
{
    let inst = Inst::Brif {
        cond,
        yes: Boxed::new(alloc, to_alone(alloc, yes))?,
        no: Boxed::new(alloc, to_alone(alloc, no))?,
    };
    Ok(line(alloc, inst, Some(Ty::I8), Values::none()))
}

/// `[ tag1: blockH(exn0), default: blockH(exn1) ]`
fn handlers(alloc: Global, handler: Block) -> Result<Table<BlockCall>, AllocError>
    ensures { IfOk result (λ table. table ≡ spec.handlers handler) }
{
    let tagged = Entry {
        tag: Some(1),
        target: to(handler, Arg::Exn(0)),
    };
    let other = Entry {
        tag: None,
        target: to(handler, Arg::Exn(1)),
    };
    Ok(Table::new(vec![in alloc; tagged, other]?))
}

/// `try_call fnC(vA), sig0, blockN(ret0), [ tag1: blockH(exn0), default: blockH(exn1) ]`
pub(crate) fn try_call(
    alloc: Global,
    callee: FuncRef,
    arg: Value,
    normal: Block,
    handler: Block,
) -> Result<InstData, AllocError>
    ensures { IfOk result (λ line. line_of line ≡ spec.try_call callee arg normal handler) }
{
    let inst = Inst::TryCall {
        callee,
        sig: SigRef::new(0),
        args: Values::one(arg),
        normal: Boxed::new(alloc, to(normal, Arg::Ret(0)))?,
        table: Boxed::new(alloc, handlers(alloc, handler)?)?,
    };
    Ok(line(alloc, inst, None, Values::none()))
}
