//! Instructions.
ghost use Rattle.std.specs.Prelude.{◌≡◌};
ghost use Rattle.ir_core.specs.Uses.{callee_of};
ghost use Rattle.ir_core.specs.Viewed.{instruction_of};

use crate::numbers::{Block, FuncRef, SigRef, Slot, Value};
use crate::signatures::Ty;
use crate::values::Values;
use clk_num::{Bits, Op, TrapCode};
use containers::{Boxed, Few, List};
use debug_tags::Tags;
use exn_tables::Table;
use std::mem::size_of;

/// An argument of a target: a value, a result of the call, or a payload of the exception.
#[derive(Clone, Copy, PartialEq, Eq)]
pub enum Arg {
    Value(Value),
    Ret(u32),
    Exn(u32),
}

/// A target of a branch: a block and the arguments for its parameters.
#[derive(Drop)]
pub struct BlockCall {
    pub block: Block,
    pub args: Few<Arg>,
}

/// The flags of a memory access.
#[derive(Clone, Copy, PartialEq, Eq)]
pub struct Flags {
    pub notrap: bool,
    pub aligned: bool,
    pub readonly: bool,
    pub can_move: bool,
    pub little: bool,
    pub big: bool,
    pub heap: bool,
    pub table: bool,
    pub vmctx: bool,
}

/// What a load reads: the whole type, or a number of bytes that are extended to the type.
#[derive(Clone, Copy, PartialEq, Eq)]
pub enum Access {
    Full(Ty),
    Uload(Ty, u8),
    Sload(Ty, u8),
}

/// An instruction by its format. A function keeps its instructions in one vector, where each takes the room of the
/// largest. So the parts that would make an instruction larger than a constant is stand behind pointers.
#[derive(Drop)]
pub enum Inst {
    Nop,
    SequencePoint,
    Const(Bits),
    Pure {
        op: Op,
        args: Values,
    },
    PureImm {
        op: Op,
        arg: Value,
        imm: Bits,
    },
    Load {
        access: Access,
        flags: Flags,
        address: Value,
        offset: i32,
    },
    /// `narrow` is the number of bytes stored by `istore8`, `istore16` and `istore32`, and none for `store`.
    Store {
        narrow: Option<u8>,
        flags: Flags,
        value: Value,
        address: Value,
        offset: i32,
    },
    StackLoad {
        ty: Ty,
        slot: Slot,
        offset: i32,
    },
    StackStore {
        value: Value,
        slot: Slot,
        offset: i32,
    },
    FuncAddr(FuncRef),
    Jump(BlockCall),
    Brif {
        cond: Value,
        yes: Boxed<BlockCall>,
        no: Boxed<BlockCall>,
    },
    BrTable {
        index: Value,
        default: Boxed<BlockCall>,
        entries: List<BlockCall>,
    },
    Return(Values),
    Trap(TrapCode),
    Trapz {
        cond: Value,
        code: TrapCode,
    },
    Trapnz {
        cond: Value,
        code: TrapCode,
    },
    Call {
        callee: FuncRef,
        args: Values,
    },
    ReturnCall {
        callee: FuncRef,
        args: Values,
    },
    TryCall {
        callee: FuncRef,
        sig: SigRef,
        args: Values,
        normal: Boxed<BlockCall>,
        table: Boxed<Table<BlockCall>>,
    },
    CallIndirect {
        sig: SigRef,
        address: Value,
        args: Values,
    },
    ReturnCallIndirect {
        sig: SigRef,
        address: Value,
        args: Values,
    },
    TryCallIndirect {
        sig: SigRef,
        address: Value,
        args: Values,
        normal: Boxed<BlockCall>,
        table: Boxed<Table<BlockCall>>,
    },
}

impl Inst {
    /// The declaration that a direct call names.
    pub fn callee(&self) -> Option<FuncRef>
        ensures { result ≡ callee_of (instruction_of self.now) }
    {
        match self {
            Inst::Call { callee, .. } => Some(*callee),
            Inst::ReturnCall { callee, .. } => Some(*callee),
            Inst::TryCall { callee, .. } => Some(*callee),
            _ => None,
        }
    }
}

/// An instruction with its results and debug tags. `ty` is the controlling type of an instruction whose form has a
/// suffix that may be left out, and none for every other form.
#[derive(Drop)]
pub struct InstData {
    pub inst: Inst,
    pub ty: Option<Ty>,
    pub results: Values,
    pub tags: Tags,
}

/// A module has millions of instructions: how large one is decides how much memory the module takes.
const _: () = prove!(size_of::<InstData>() <= 96);
