//! Modules as the grammar reads them, with names that are not looked up yet. Each type stands for a rule of the grammar
//! and has a field for each of its parts; a spot is the first byte of a word or number.

use clif_insts::RawInst;
use ir_core::{Boxed, Conv, Few, List, NameBytes, Ty};
use token_reader::{RawName, RawNumber};

/// A word behind the type of a parameter or result.
#[derive(Clone, Copy, PartialEq, Eq)]
pub enum RawAttribute {
    Uext,
    Sext,
    Vmctx,
    Sret,
}

/// A parameter or result of a signature. Of `uext` and `sext` at most one is an attribute, and of `vmctx` and `sret`.
#[derive(Drop)]
pub struct RawParam {
    pub ty: Ty,
    /// In the order in which they are written.
    pub attributes: List<RawAttribute>,
}

/// A signature. `conv` is none where no calling convention is written.
#[derive(Drop)]
pub struct RawSignature {
    pub params: Few<RawParam>,
    pub results: Few<RawParam>,
    pub conv: Option<Conv>,
}

/// The name of a function or of a callee.
#[derive(Drop)]
pub enum RawFuncName {
    /// `%name`, without the `%`. The spot is that of the `%`.
    Text { name: NameBytes, spot: usize },
    /// `u0:1`
    User { space: RawName, number: RawNumber },
}

impl RawFuncName {
    ghost use Rattle.std.specs.Prelude.{◌≡◌};
    ghost use Rattle.clif_read.specs.Marks.{name_spot};

    /// The name's first byte.
    pub fn spot(&self) -> usize
        ensures { result ≡ name_spot self.now }
    {
        match self {
            RawFuncName::Text { spot, .. } => *spot,
            RawFuncName::User { space, .. } => space.spot,
        }
    }
}

/// The signature of a callee: one that is declared, or its own.
#[derive(Drop)]
pub enum RawCalleeSig {
    Declared(RawName),
    Inline(Boxed<RawSignature>),
}

/// A declaration. Of a function there may be some 262,000, so it is kept small, 112 bytes: signatures stand behind a
/// pointer, since most declarations have none, and the parts of a callee in an order that leaves no gaps.
#[derive(Drop)]
pub enum RawDecl {
    /// `ss0 = explicit_slot 8, align = 4`, the size and alignment in bytes.
    Slot {
        slot: RawName,
        size: RawNumber,
        align: Option<RawNumber>,
    },
    /// `sig0 = (i64) -> i64 fast`
    Sig {
        sig: RawName,
        signature: Boxed<RawSignature>,
    },
    /// `fn0 = colocated %g sig0`
    Callee {
        colocated: bool,
        callee: RawName,
        sig: RawCalleeSig,
        name: RawFuncName,
    },
}

/// A debug tag: a number of the user, or a slot.
#[derive(Clone, Copy, PartialEq, Eq)]
pub enum RawTag {
    User(RawNumber),
    Slot(RawName),
}

/// A line of a block. `location` is the spot of the source location that stands before it.
#[derive(Drop)]
pub enum RawLine {
    /// `v2 -> v1`
    Alias {
        location: Option<usize>,
        alias: RawName,
        value: RawName,
    },
    /// `<7, ss0> v1, v2 = ` and an instruction
    Inst {
        location: Option<usize>,
        tags: List<RawTag>,
        results: Few<RawName>,
        inst: RawInst,
    },
}

/// A parameter of a block.
#[derive(Clone, Copy, PartialEq, Eq)]
pub struct RawBlockParam {
    pub value: RawName,
    pub ty: Ty,
}

/// A block.
#[derive(Drop)]
pub struct RawBlock {
    pub block: RawName,
    pub params: Few<RawBlockParam>,
    pub cold: bool,
    pub lines: List<RawLine>,
}

/// A function. It has at least one block.
#[derive(Drop)]
pub struct RawFunction {
    /// The spot of the word `function`.
    pub spot: usize,
    pub name: RawFuncName,
    pub signature: RawSignature,
    pub decls: List<RawDecl>,
    pub blocks: List<RawBlock>,
    /// The spot of the `}`.
    pub end_spot: usize,
}

/// A module: the spots of its header lines, and its functions in the order of the text.
#[derive(Drop)]
pub struct RawModule {
    pub headers: List<usize>,
    pub functions: List<RawFunction>,
}
