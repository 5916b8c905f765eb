//! Branches.
ghost use Rattle.std.specs.Prelude.{◌≡◌, IfOk, List};
ghost use Rattle.ir_core.specs.Module.{Brif, BrTable};
ghost use Rattle.ir_semantics.specs.Machine.{World as RunWorld};
ghost use Rattle.ir_semantics.specs.Effect.{go_to, branch, target_at};
ghost use Rattle.interp.specs.declared.state.Wait.{Wait as DeclaredWait};
ghost use Rattle.interp.specs.State.{env_of, moment, done, Linked};

use crate::blocks::enter_target;
use crate::state::{Frame, Program, Stop};
use clk_num::Bits;
use ir_core::{BlockCall, InstData, Value};
use std::alloc::AllocError;

/// Goes to a target.
pub fn jump<'m>(
    program: &Program<'m>,
    frame: &mut Frame<'m>,
    line: &InstData,
    target: &BlockCall,
    xs: &mut Vec<Bits>,
) -> Result<Option<Stop>, AllocError>
    requires linked { Linked program.now }
    ensures { IfOk result (λ r. (below : List DeclaredWait) (w : RunWorld)
        → moment program.now.module.now frame.new below w r
        ≡ done program.now.module.now frame.old below w line.now (go_to (env_of frame.old.values) target.now)) }
{
    if enter_target(program, frame, target, &[], &[], xs)? {
        Ok(None)
    } else {
        Ok(Some(Stop::Stuck))
    }
}

/// Goes to the one target where a value is not 0, and else to the other.
pub fn brif<'m>(
    program: &Program<'m>,
    frame: &mut Frame<'m>,
    line: &InstData,
    cond: Value,
    taken: &BlockCall,
    other: &BlockCall,
    xs: &mut Vec<Bits>,
) -> Result<Option<Stop>, AllocError>
    requires linked { Linked program.now }
    ensures { IfOk result (λ r. (below : List DeclaredWait) (w : RunWorld)
        → moment program.now.module.now frame.new below w r
        ≡ done program.now.module.now frame.old below w line.now
        (branch (env_of frame.old.values) (Brif cond taken.now other.now))) }
{
    let Some(x) = frame.values.get(cond.number() as usize) else {
        return Ok(Some(Stop::Stuck));
    };
    if x.value() != 0 {
        jump(program, frame, line, taken, xs)
    } else {
        jump(program, frame, line, other, xs)
    }
}

/// The entry of an index, or the default.
fn pick<'t>(entries: &'t [BlockCall], default: &'t BlockCall, index: u128) -> &'t BlockCall
    ensures { result.now ≡ target_at entries.now default.now index }
{
    if index < entries.len() as u128 {
        &entries[index as usize]
    } else {
        default
    }
}

/// Goes to the target whose index a value is.
pub fn br_table<'m>(
    program: &Program<'m>,
    frame: &mut Frame<'m>,
    line: &InstData,
    index: Value,
    default: &BlockCall,
    entries: &[BlockCall],
    xs: &mut Vec<Bits>,
) -> Result<Option<Stop>, AllocError>
    requires linked { Linked program.now }
    ensures { IfOk result (λ r. (below : List DeclaredWait) (w : RunWorld)
        → moment program.now.module.now frame.new below w r
        ≡ done program.now.module.now frame.old below w line.now
        (branch (env_of frame.old.values) (BrTable index default.now entries.now))) }
{
    let Some(x) = frame.values.get(index.number() as usize) else {
        return Ok(Some(Stop::Stuck));
    };
    let target = pick(entries, default, x.value());
    jump(program, frame, line, target, xs)
}
