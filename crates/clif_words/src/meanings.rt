//! What words and tokens are to the grammar.

ghost use Rattle.std.specs.Prelude.{◌≡◌};
ghost use Rattle.clif_words.specs.Seen as spec;

use crate::class::Class;
use crate::opcodes::Opcode;
use clk_num::Cc;
use ir_core::{Conv, Ty};

/// How a parameter or a result is extended.
#[derive(Clone, Copy)]
pub enum Extension {
    Uext,
    Sext,
}

/// A flag of a memory access but `little`, `big` and `vmctx`.
#[derive(Clone, Copy)]
pub enum Flag {
    Notrap,
    Aligned,
    Readonly,
    CanMove,
    Heap,
    Table,
}

/// A trap code but `userN`.
#[derive(Clone, Copy)]
pub enum NamedTrap {
    StkOvf,
    IntOvf,
    HeapOob,
    IntDivz,
    BadToint,
}

/// What a word with a number behind it names.
#[derive(Clone, Copy, PartialEq, Eq)]
pub enum Entity {
    /// `vN`.
    Value,
    /// `blockN`.
    Block,
    /// `ssN`.
    Slot,
    /// `sigN`.
    Sig,
    /// `fnN`.
    Callee,
    /// `tagN`.
    Tag,
    /// `retN`.
    Ret,
    /// `exnN`.
    Exn,
    /// `uN`, the first part of a name.
    UserName,
    /// `userN`, a trap code.
    UserTrap,
}

impl Entity {
    /// The class of the words that name one.
    #[inline]
    pub fn class(self) -> Class
        ensures { result ≡ spec.entity_class self }
    {
        match self {
            Entity::Value => Class::Value,
            Entity::Block => Class::Block,
            Entity::Slot => Class::Slot,
            Entity::Sig => Class::Sig,
            Entity::Callee => Class::Callee,
            Entity::Tag => Class::Tag,
            Entity::Ret => Class::Ret,
            Entity::Exn => Class::Exn,
            Entity::UserName => Class::UserName,
            Entity::UserTrap => Class::UserTrap,
        }
    }
}

/// Which of its class the word of a calling convention is.
fn find_convention_number(convention: Conv) -> u64
    ensures { result ≡ (spec.seen_convention convention).number }
{
    match convention {
        Conv::Fast | Conv::Cold => 0,
        Conv::Tail => 1,
        Conv::SystemV => 2,
        Conv::WindowsFastcall => 3,
        Conv::AppleAarch64 => 4,
        Conv::Probestack => 5,
        Conv::Winch => 6,
    }
}

/// Which of its class the word of a type is.
fn find_type_number(ty: Ty) -> u64
    ensures { result ≡ (spec.seen_type ty).number }
{
    match ty {
        Ty::I8 | Ty::I64 => 0,
        Ty::I16 => 1,
        Ty::I32 => 2,
        Ty::I128 => 3,
    }
}

/// What a word is to the grammar.
#[derive(Clone, Copy)]
pub enum Word {
    /// An opcode that is read.
    Opcode(Opcode),
    /// An opcode of another kind.
    RefusedOpcode,
    /// `function`.
    Function,
    /// A calling convention.
    Conv(Conv),
    /// A type.
    Ty(Ty),
    /// A type of another kind.
    RefusedType,
    /// `uext` or `sext`.
    Ext(Extension),
    /// `vmctx`, a purpose of a parameter and a memory flag.
    Vmctx,
    /// `sret`.
    Sret,
    /// `explicit_slot`.
    ExplicitSlot,
    /// `align`.
    Align,
    /// `colocated`.
    Colocated,
    /// The word of another declaration.
    RefusedDecl,
    /// `default`.
    Default,
    /// `context`.
    Context,
    /// A memory flag but `little`, `big` and `vmctx`.
    Flag(Flag),
    /// `little`.
    Little,
    /// `big`.
    Big,
    /// A trap code but `userN`.
    TrapCode(NamedTrap),
    /// A condition of `icmp`.
    Condition(Cc),
    /// A word and its number, as `v7`. A number above 2^64 - 1 is taken as that.
    Entity(Entity, u64),
    /// Any other word.
    Other,
}

impl Word {
    /// The class of the word.
    #[inline]
    pub fn class(self) -> Class
        ensures { result ≡ (spec.seen_word self).class }
    {
        match self {
            Word::Opcode(opcode) => opcode.form(),
            Word::RefusedOpcode => Class::RefusedOpcode,
            Word::Function => Class::Function,
            Word::Conv(Conv::Cold) => Class::Cold,
            Word::Conv(_) => Class::Conv,
            Word::Ty(Ty::I64) => Class::TyI64,
            Word::Ty(_) => Class::Ty,
            Word::RefusedType => Class::RefusedType,
            Word::Ext(_) => Class::Ext,
            Word::Vmctx => Class::Vmctx,
            Word::Sret => Class::Sret,
            Word::ExplicitSlot => Class::ExplicitSlot,
            Word::Align => Class::Align,
            Word::Colocated => Class::Colocated,
            Word::RefusedDecl => Class::RefusedDecl,
            Word::Default => Class::Default,
            Word::Context => Class::Context,
            Word::Flag(_) => Class::Flag,
            Word::Little => Class::Little,
            Word::Big => Class::Big,
            Word::TrapCode(_) => Class::TrapCode,
            Word::Condition(_) => Class::Condition,
            Word::Entity(entity, _) => entity.class(),
            Word::Other => Class::Other,
        }
    }

    /// Which of its class the word is; of an entity the number in it.
    #[inline(never)]
    fn find_place_in_class(self) -> u64
        ensures { result ≡ (spec.seen_word self).number }
    {
        match self {
            Word::Opcode(opcode) => opcode as u64,
            Word::Conv(convention) => find_convention_number(convention),
            Word::Ty(ty) => find_type_number(ty),
            Word::Ext(extension) => extension as u64,
            Word::Flag(flag) => flag as u64,
            Word::TrapCode(code) => code as u64,
            Word::Condition(condition) => condition as u64,
            Word::Entity(_, number) => number,
            _ => 0,
        }
    }

    /// The number in the word of an entity; of another word, which of its class it is.
    /// That of an entity, which is asked most, is at hand.
    #[inline]
    pub fn number(self) -> u64
        ensures { result ≡ (spec.seen_word self).number }
    {
        match self {
            Word::Entity(_, number) => number,
            _ => self.find_place_in_class(),
        }
    }
}

/// What a token is to the grammar.
#[derive(Clone, Copy)]
pub enum Terminal {
    /// A word.
    Word(Word),
    /// A line of a filetest's head.
    Header,
    /// `%` and a name.
    Name,
    /// A number without a sign.
    Unsigned,
    /// A number with a sign.
    Signed,
    /// A source location.
    Srcloc,
    /// `->`.
    Arrow,
    /// `(`.
    LeftParen,
    /// `)`.
    RightParen,
    /// `{`.
    LeftBrace,
    /// `}`.
    RightBrace,
    /// `[`.
    LeftBracket,
    /// `]`.
    RightBracket,
    /// `,`.
    Comma,
    /// `:`.
    Colon,
    /// `=`.
    Equals,
    /// `.`.
    Dot,
    /// `<`.
    Less,
    /// `>`.
    Greater,
    /// Any other token.
    Other,
}

impl Terminal {
    /// The number in the word of an entity; of another token, which of its class it is.
    #[inline]
    pub fn number(self) -> u64
        ensures { result ≡ (spec.seen self).number }
    {
        match self {
            Terminal::Word(word) => word.number(),
            _ => 0,
        }
    }
}
