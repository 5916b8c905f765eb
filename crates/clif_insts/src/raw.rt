//! Instructions as the grammar reads them, with names that are not looked up yet.

use clk_num::Cc;
use ir_core::{Boxed, Few, List, Ty};
use std::mem::size_of;
use token_reader::{RawName, RawNumber, RawOpcode};

/// An argument of a target: `vN`, `retN` or `exnN`.
#[derive(Clone, Copy, PartialEq, Eq)]
pub enum RawArg {
    Value(RawName),
    Ret(RawName),
    Exn(RawName),
}

/// A target: a block and its arguments.
#[derive(Drop)]
pub struct RawTarget {
    pub block: RawName,
    pub args: Few<RawArg>,
}

/// An entry of an exception table: `tagN`, or none for `default`, and its target.
#[derive(Drop)]
pub struct RawEntry {
    pub tag: Option<RawName>,
    pub target: RawTarget,
}

/// A trap code. `User` has the number of a `userN`.
#[derive(Clone, Copy, PartialEq, Eq)]
pub enum RawTrap {
    StkOvf,
    IntOvf,
    HeapOob,
    IntDivz,
    BadToint,
    User(RawName),
}

/// A flag of a memory access.
#[derive(Clone, Copy, PartialEq, Eq)]
pub enum RawFlag {
    Notrap,
    Aligned,
    Readonly,
    CanMove,
    Heap,
    Table,
    Vmctx,
    Little,
    Big,
}

/// What stands behind an opcode and its suffix, by form.
#[derive(Drop)]
pub enum RawOperands {
    Nullary,
    Number(RawNumber),
    Unary(RawName),
    Binary(RawName, RawName),
    Ternary(RawName, RawName, RawName),
    Compare(Cc, RawName, RawName),
    BinaryImm(RawName, RawNumber),
    CompareImm(Cc, RawName, RawNumber),
    Load {
        flags: List<RawFlag>,
        address: RawName,
        offset: Option<Boxed<RawNumber>>,
    },
    Store {
        flags: List<RawFlag>,
        value: RawName,
        address: RawName,
        offset: Option<Boxed<RawNumber>>,
    },
    StackLoad {
        slot: RawName,
        offset: Option<Boxed<RawNumber>>,
    },
    StackStore {
        value: RawName,
        slot: RawName,
        offset: Option<Boxed<RawNumber>>,
    },
    FuncAddr(RawName),
    Jump(RawTarget),
    Brif {
        cond: RawName,
        yes: Boxed<RawTarget>,
        no: Boxed<RawTarget>,
    },
    BrTable {
        index: RawName,
        default: Boxed<RawTarget>,
        entries: List<RawTarget>,
    },
    Return(Few<RawName>),
    Trap(RawTrap),
    TrapIf(RawName, RawTrap),
    Call {
        callee: RawName,
        args: Few<RawName>,
    },
    TryCall {
        callee: RawName,
        args: List<RawName>,
        sig: RawName,
        normal: Boxed<RawTarget>,
        table: Boxed<List<RawEntry>>,
    },
    CallIndirect {
        sig: RawName,
        address: RawName,
        args: Few<RawName>,
    },
    TryCallIndirect {
        address: RawName,
        args: List<RawName>,
        sig: RawName,
        normal: Boxed<RawTarget>,
        table: Boxed<List<RawEntry>>,
    },
}

/// An instruction. `suffix` is none where there is no suffix, and for `func_addr` and the indirect calls, whose only
/// suffix is `i64`. The grammar gives operands of the opcode's form alone.
#[derive(Drop)]
pub struct RawInst {
    pub opcode: RawOpcode,
    pub suffix: Option<Ty>,
    pub operands: RawOperands,
}

/// A text has millions of instructions: how large one is decides how much memory and time reading it takes.
const _: () = prove!(size_of::<RawInst>() <= 112);
