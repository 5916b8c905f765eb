//! What a body brings besides its blocks.
ghost use Rattle.std.specs.Prelude.{◌≡◌, List, Some, ◌++◌, length, map, IfOk};
ghost use Rattle.ir_core.specs.Lists.{Below};
ghost use Rattle.ir_core.specs.Lookup.{type_of};
ghost use Rattle.ir_core.specs.Viewed.{instruction_of, line_of};
ghost use Rattle.ir_core.specs.declared.signatures.Ty.{Ty};
ghost use Rattle.ir_semantics.specs.Splice.{args_of};
ghost use Rattle.inline_body.specs.Inlined.{jump_line};
ghost use Rattle.inline_body.specs.Results.{repeated};

use crate::lines::jump;
use crate::results::{new_types, result_types};
use ir_core::{Block, Func, Inst, InstData, List, SlotDecl, Ty, Value, Values};
use std::alloc::{AllocError, Global};

/// The arguments of a call; no values where the instruction is none.
pub fn call_args(inst: &Inst) -> &[Value]
    ensures { result.now ≡ args_of (instruction_of inst.now) }
{
    match inst {
        Inst::Call { args, .. } => args.as_slice(),
        Inst::ReturnCall { args, .. } => args.as_slice(),
        Inst::TryCall { args, .. } => args.as_slice(),
        Inst::CallIndirect { args, .. } => args.as_slice(),
        Inst::ReturnCallIndirect { args, .. } => args.as_slice(),
        Inst::TryCallIndirect { args, .. } => args.as_slice(),
        _ => &[],
    }
}

/// The slots and the types of values that come in with a body, the jump into it, and the results of its site.
#[derive(Drop)]
pub struct SiteParts {
    pub slots: List<SlotDecl>,
    pub types: List<Ty>,
    pub jump: InstData,
    pub results: Values,
}

/// What a callee's body brings besides its blocks at a call of a caller that has so many blocks. `results` are the
/// call's where the caller goes on behind it, and each of so many tail calls of the callee has as many; else there are
/// none. Only `AllocError` refuses.
pub fn site_parts(
    alloc: Global,
    caller: &Func,
    block_count: u32,
    call: &InstData,
    results: &[Value],
    callee: &Func,
    tail_calls: usize,
) -> Result<SiteParts, AllocError>
    requires { Below (length caller.now.function.types) results.now }
    ensures slots { IfOk result (λ parts. parts.slots ≡ callee.now.function.slots) }
    ensures types { IfOk result (λ parts. (types : List Ty)
        × (map Some types ≡ map (type_of caller.now.function) results.now)
        × (parts.types ≡ map (λ t. t.1) callee.now.function.types ++ repeated tail_calls types)) }
    ensures jump { IfOk result
        (λ parts. line_of parts.jump ≡ jump_line block_count (args_of (instruction_of call.now.inst))) }
    ensures results { IfOk result (λ parts. parts.results ≡ results.now) }
{
    let kept = result_types(alloc, caller, results)?;
    let types = new_types(alloc, callee, kept.as_slice(), tail_calls)?;
    let slots = Vec::from_slice(alloc, callee.slots())?;
    let results = Values::from_slice(alloc, results)?;
    let jump = jump(alloc, Block::new(block_count), call_args(&call.inst))?;
    Ok(SiteParts {
        slots: List::from_vec(slots),
        types,
        jump,
        results,
    })
}
