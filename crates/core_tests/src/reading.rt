//! What was inlined, read back.
ghost use Rattle.ir_core.specs.Lists.{In};
ghost use Rattle.ir_core.specs.Lookup.{block_numbers};

use crate::functions::{WORD, inlined};
use ir_core::{Arg, Block, BlockCall, Func, FuncName, Inst, Ty, Value, Values};
use std::alloc::{AllocError, Global};
use std::process::Abort;

/// A block as it is read back: its number, how many parameters it has, and its one instruction by opcode, first value
/// and the block where it goes on.
type Told = (u32, usize, &'static str, u32, Option<u32>);

fn told(func: &Func, block: Block) -> Told
    requires { In block (block_numbers func.now.function.blocks) }
{
    let number = block.number();
    let params = func.params(block).len();
    let mut insts = func.insts(block);
    let (Some(first), None) = (insts.next(), insts.next()) else {
        return (number, params, "", 0, None);
    };
    match &first.inst {
        Inst::Jump(target) => {
            let next = target.block.number();
            (number, params, "jump", first_argument(target), Some(next))
        }
        Inst::TryCall { args, normal, .. } => {
            let next = normal.get().block.number();
            (number, params, "try_call", first_value(args), Some(next))
        }
        Inst::Return(values) => (number, params, "return", first_value(values), None),
        _ => (number, params, "", 0, None),
    }
}

/// The blocks in order.
fn all_told(alloc: Global, func: &Func) -> Result<Vec<Told>, AllocError> {
    let mut list = Vec::new(alloc);
    for block in func.blocks() {
        list.push(told(func, block))?;
    }
    Ok(list)
}

/// The number of the first of some values.
fn first_value(values: &Values) -> u32 {
    match values.as_slice() {
        [first, ..] => first.number(),
        [] => 0,
    }
}

/// The number of a target's first argument, where it is a value.
fn first_argument(target: &BlockCall) -> u32 {
    match target.args.as_slice() {
        [Arg::Value(value), ..] => value.number(),
        _ => 0,
    }
}

/// Reads the name and the signature of what was inlined.
fn reads_head<A: Abort>(rt: &A, func: &Func) {
    assert!(rt; matches!(func.name(), FuncName::Text(text) if text.as_slice() == b"f".as_slice()));
    assert_eq!(rt; func.sig().params.as_slice(), [WORD].as_slice());
    assert_eq!(rt; func.sig().results.as_slice(), [WORD].as_slice());
}

/// Reads the declarations of what was inlined.
fn reads_declarations<A: Abort>(rt: &A, func: &Func) {
    assert!(rt; func.slots().is_empty());
    assert_eq!(rt; func.sigs().len(), 1);
    assert_eq!(rt; func.callees().len(), 2);
    assert_eq!(rt; func.values(), 5);
    assert_eq!(rt; func.ty(Value::new(4)), Ty::I64);
}

/// Reads the blocks of what was inlined.
fn reads_blocks<A: Abort>(rt: &A, alloc: Global, func: &Func) -> Result<(), AllocError> {
    assert!(rt; func.whole());
    assert_eq!(rt; func.size(), 28);
    let expected = [
        (0, 1, "jump", 0, Some(3)),
        (3, 1, "try_call", 3, Some(4)),
        (4, 1, "jump", 4, Some(1)),
        (1, 1, "return", 1, None),
        (2, 1, "return", 2, None),
    ];
    assert!(rt; all_told(alloc, func)?.as_slice() == expected.as_slice());
    Ok(())
}

#[test]
fn reads_back_what_was_inlined(rt: HostRuntime) -> Result<(), AllocError> {
    let func = inlined(rt.alloc())?;
    reads_head(&rt, &func);
    reads_declarations(&rt, &func);
    reads_blocks(&rt, rt.alloc(), &func)
}
