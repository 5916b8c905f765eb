//! Instructions that give values.
ghost use Rattle.std.specs.Prelude.{◌≡◌, ◌∷◌, [], IfOk, List};
ghost use Rattle.clk_num.specs.Operations.{operation};
ghost use Rattle.clk_num.specs.Views.{data_of, data_of_all};
ghost use Rattle.ir_core.specs.Module.{Module as RunModule, Pure, PureImm, Trapz, Trapnz};
ghost use Rattle.ir_semantics.specs.Machine.{World as RunWorld};
ghost use Rattle.ir_semantics.specs.Effect.{Go, evaluated};
ghost use Rattle.byte_store.specs.Cells.{bytes_at};
ghost use Rattle.interp.specs.declared.state.Wait.{Wait as DeclaredWait};
ghost use Rattle.interp.specs.State.{moment, done, simply};

use crate::common_ops::eval_common;
use crate::moves::{bind, read_all};
use crate::outcome::End;
use crate::state::{Frame, Stop};
use clk_num::{Bits, Evaled, Op, TrapCode, eval, fits};
use ir_core::{InstData, Value};
use std::alloc::AllocError;

/// The results get these values.
pub fn give_results(
    frame: &mut Frame,
    line: &InstData,
    xs: &[Bits],
) -> Result<Option<Stop>, AllocError>
    ensures { IfOk result (λ r. (m : RunModule) (below : List DeclaredWait) (w : RunWorld)
        → moment m frame.new below w r
        ≡ done m frame.old below w line.now (Go (data_of_all xs.now) (bytes_at frame.old.slots) w.memory)) }
{
    if bind(&mut frame.values, line.results.as_slice(), xs)? {
        Ok(None)
    } else {
        Ok(Some(Stop::Stuck))
    }
}

/// The one result gets this value.
pub fn give_one(frame: &mut Frame, line: &InstData, x: Bits) -> Result<Option<Stop>, AllocError>
    ensures { IfOk result (λ r. (m : RunModule) (below : List DeclaredWait) (w : RunWorld)
        → moment m frame.new below w r
        ≡ done m frame.old below w line.now (Go (data_of x ∷ []) (bytes_at frame.old.slots) w.memory)) }
{
    match line.results.as_slice() {
        [name] => {
            frame.values.put(name.number() as usize, x)?;
            Ok(None)
        }
        _ => {
            let x = Bits {
                width: x.width,
                value: x.value,
            };
            give_results(frame, line, &[x])
        }
    }
}

/// The results get what an operation gives.
pub fn compute(
    frame: &mut Frame,
    line: &InstData,
    op: Op,
    args: &[Bits],
) -> Result<Option<Stop>, AllocError>
    ensures { IfOk result (λ r. (m : RunModule) (below : List DeclaredWait) (w : RunWorld)
        → moment m frame.new below w r
        ≡ done m frame.old below w line.now
        (evaluated (bytes_at frame.old.slots) w.memory (operation op (data_of_all args.now)))) }
{
    if !fits(op, args) {
        return Ok(Some(Stop::Stuck));
    }
    match eval(op, args) {
        Evaled::One(x) => give_one(frame, line, x),
        Evaled::Two(x, y) => give_results(frame, line, &[x, y]),
        Evaled::Trap(code) => Ok(Some(Stop::At(End::Trapped(code)))),
    }
}

/// The results get what an operation gives on two values.
fn compute_two(
    frame: &mut Frame,
    line: &InstData,
    op: Op,
    x: Bits,
    y: Bits,
) -> Result<Option<Stop>, AllocError>
    ensures { IfOk result (λ r. (m : RunModule) (below : List DeclaredWait) (w : RunWorld)
        → moment m frame.new below w r
        ≡ done m frame.old below w line.now
        (evaluated (bytes_at frame.old.slots) w.memory (operation op (data_of x ∷ data_of y ∷ [])))) }
{
    match eval_common(op, x, y) {
        Some(z) => give_one(frame, line, z),
        None => compute(frame, line, op, &[x, y]),
    }
}

/// An operation on values.
pub fn pure_op(
    frame: &mut Frame,
    line: &InstData,
    op: Op,
    args: &[Value],
    xs: &mut Vec<Bits>,
) -> Result<Option<Stop>, AllocError>
    ensures { IfOk result (λ r. (m : RunModule) (below : List DeclaredWait) (w : RunWorld)
        → moment m frame.new below w r
        ≡ done m frame.old below w line.now (simply m frame.old w (Pure op args.now))) }
{
    match args {
        [a, b] => pure_two(frame, line, op, *a, *b),
        _ => {
            if !read_all(&frame.values, args, xs)? {
                return Ok(Some(Stop::Stuck));
            }
            compute(frame, line, op, xs)
        }
    }
}

/// An operation on two values.
fn pure_two(
    frame: &mut Frame,
    line: &InstData,
    op: Op,
    a: Value,
    b: Value,
) -> Result<Option<Stop>, AllocError>
    ensures { IfOk result (λ r. (m : RunModule) (below : List DeclaredWait) (w : RunWorld)
        → moment m frame.new below w r
        ≡ done m frame.old below w line.now (simply m frame.old w (Pure op (a ∷ b ∷ [])))) }
{
    let Some(x) = frame.values.get(a.number() as usize) else {
        return Ok(Some(Stop::Stuck));
    };
    let Some(y) = frame.values.get(b.number() as usize) else {
        return Ok(Some(Stop::Stuck));
    };
    compute_two(frame, line, op, x, y)
}

/// An operation on a value and an immediate.
pub fn pure_imm(
    frame: &mut Frame,
    line: &InstData,
    op: Op,
    arg: Value,
    imm: Bits,
) -> Result<Option<Stop>, AllocError>
    ensures { IfOk result (λ r. (m : RunModule) (below : List DeclaredWait) (w : RunWorld)
        → moment m frame.new below w r
        ≡ done m frame.old below w line.now (simply m frame.old w (PureImm op arg (data_of imm)))) }
{
    let Some(x) = frame.values.get(arg.number() as usize) else {
        return Ok(Some(Stop::Stuck));
    };
    compute_two(frame, line, op, x, imm)
}

/// Traps where a value is 0.
pub fn trapz(
    frame: &mut Frame,
    line: &InstData,
    cond: Value,
    code: TrapCode,
) -> Result<Option<Stop>, AllocError>
    ensures { IfOk result (λ r. (m : RunModule) (below : List DeclaredWait) (w : RunWorld)
        → moment m frame.new below w r ≡ done m frame.old below w line.now (simply m frame.old w (Trapz cond code))) }
{
    let Some(x) = frame.values.get(cond.number() as usize) else {
        return Ok(Some(Stop::Stuck));
    };
    if x.value() == 0 {
        return Ok(Some(Stop::At(End::Trapped(code))));
    }
    give_results(frame, line, &[])
}

/// Traps where a value is not 0.
pub fn trapnz(
    frame: &mut Frame,
    line: &InstData,
    cond: Value,
    code: TrapCode,
) -> Result<Option<Stop>, AllocError>
    ensures { IfOk result (λ r. (m : RunModule) (below : List DeclaredWait) (w : RunWorld)
        → moment m frame.new below w r
        ≡ done m frame.old below w line.now (simply m frame.old w (Trapnz cond code))) }
{
    let Some(x) = frame.values.get(cond.number() as usize) else {
        return Ok(Some(Stop::Stuck));
    };
    if x.value() != 0 {
        return Ok(Some(Stop::At(End::Trapped(code))));
    }
    give_results(frame, line, &[])
}
