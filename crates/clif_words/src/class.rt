//! The classes of tokens that the grammar tells apart.

/// What a token is to the grammar. Words are told apart by their spelling; of an opcode the class says its form.
/// The words that are no opcodes stand together, from `Function` to `Other`.
#[derive(Clone, Copy, PartialEq, Eq)]
pub enum Class {
    /// A line of a filetest's head.
    Header,
    /// `%` and a name.
    Name,
    /// A number without a sign.
    Unsigned,
    /// A number with a sign.
    Signed,
    /// A source location.
    Srcloc,
    /// `->`.
    Arrow,
    /// `(`.
    LeftParen,
    /// `)`.
    RightParen,
    /// `{`.
    LeftBrace,
    /// `}`.
    RightBrace,
    /// `[`.
    LeftBracket,
    /// `]`.
    RightBracket,
    /// `,`.
    Comma,
    /// `:`.
    Colon,
    /// `=`.
    Equals,
    /// `.`.
    Dot,
    /// `<`.
    Less,
    /// `>`.
    Greater,
    /// `function`.
    Function,
    /// A calling convention but `cold`.
    Conv,
    /// `cold`.
    Cold,
    /// A type but `i64`.
    Ty,
    /// `i64`.
    TyI64,
    /// A type of another kind.
    RefusedType,
    /// `uext` or `sext`.
    Ext,
    /// `vmctx`, a purpose of a parameter and a memory flag.
    Vmctx,
    /// `sret`.
    Sret,
    /// `explicit_slot`.
    ExplicitSlot,
    /// `align`.
    Align,
    /// `colocated`.
    Colocated,
    /// The word of another declaration.
    RefusedDecl,
    /// `default`.
    Default,
    /// `context`.
    Context,
    /// A memory flag but `little`, `big` and `vmctx`.
    Flag,
    /// `little`.
    Little,
    /// `big`.
    Big,
    /// A trap code but `userN`.
    TrapCode,
    /// A condition of `icmp`.
    Condition,
    /// `vN`.
    Value,
    /// `blockN`.
    Block,
    /// `ssN`.
    Slot,
    /// `sigN`.
    Sig,
    /// `fnN`.
    Callee,
    /// `tagN`.
    Tag,
    /// `retN`.
    Ret,
    /// `exnN`.
    Exn,
    /// `uN`, the first part of a name.
    UserName,
    /// `userN`, a trap code.
    UserTrap,
    /// Any other word.
    Other,
    /// An opcode of the form `iconst.T n`.
    Iconst,
    /// An opcode of the form `op[.T] x, y`.
    Binary,
    /// An opcode of the form `op[.T] x`.
    Unary,
    /// An opcode of the form `icmp[.T] cc x, y`.
    Icmp,
    /// An opcode of the form `select[.T] c, x, y`.
    Select,
    /// An opcode of the form `op.T x`.
    Convert,
    /// An opcode of the form `op[.T] x, n`.
    BinaryImm,
    /// An opcode of the form `icmp_imm[.T] cc x, n`.
    IcmpImm,
    /// An opcode of the form `op.T flags p+off`.
    Load,
    /// An opcode of the form `op[.i64] flags p+off`.
    LoadWide,
    /// An opcode of the form `op[.T] flags x, p+off`.
    Store,
    /// An opcode of the form `stack_load.T ssN+off`.
    StackLoad,
    /// An opcode of the form `stack_store[.T] x, ssN+off`.
    StackStore,
    /// An opcode of the form `func_addr.i64 fnN`.
    FuncAddr,
    /// An opcode without operands.
    Nullary,
    /// An opcode of the form `jump call-to`.
    Jump,
    /// An opcode of the form `brif[.T] x, call-to, call-to`.
    Brif,
    /// An opcode of the form `br_table v, call-to, [call-to, ..]`.
    BrTable,
    /// An opcode of the form `return v, ..`.
    Return,
    /// An opcode of the form `trap code`.
    Trap,
    /// An opcode of the form `op[.T] x, code`.
    TrapIf,
    /// An opcode of the form `op fnN(v, ..)`.
    Call,
    /// An opcode of the form `try_call fnN(v, ..), sigN, call-to, table`.
    TryCall,
    /// An opcode of the form `op[.i64] sigN, v(v, ..)`.
    CallIndirect,
    /// An opcode of the form `try_call_indirect[.i64] v(v, ..), sigN, call-to, table`.
    TryCallIndirect,
    /// An opcode of another kind.
    RefusedOpcode,
}
