//! What may be wrong with a text, and where.

ghost use Rattle.std.specs.Prelude.{◌≡◌};
ghost use Rattle.clif_lex.specs.declared.faults.LexErr.TheVariants.{NoMemory};

use std::alloc::{AllocError, AllocFailed};
use std::error::Error;
use std::fmt;

/// Why a text has no tokens: the first fault, with the byte at which it stands.
#[derive(Clone, Copy, Debug, PartialEq, Eq)]
pub enum LexErr {
    /// No token begins at this byte.
    BadChar(usize),
    /// A number or a source location begins at this byte, and is none.
    BadNumber(usize),
    /// Memory ran out.
    NoMemory,
}

impl fmt::Display for LexErr {
    fn fmt<W: fmt::Write>(&self, f: &mut fmt::Formatter<W>) -> fmt::Result {
        match self {
            LexErr::BadChar(spot) => write!(f, "{} at byte {spot}", TextKind::BadChar),
            LexErr::BadNumber(spot) => write!(f, "{} at byte {spot}", TextKind::BadNumber),
            LexErr::NoMemory => write!(f, "out of memory"),
        }
    }
}

impl Error for LexErr {}

impl From<AllocError> for LexErr {
    ghost from_gives = { λ _ e. e ≡ NoMemory };

    fn from(_: AllocError) -> Self {
        LexErr::NoMemory
    }
}

impl<T: Drop> From<AllocFailed<T>> for LexErr {
    ghost from_gives = { λ _ e. e ≡ NoMemory };

    fn from(_: AllocFailed<T>) -> Self {
        LexErr::NoMemory
    }
}

/// The kinds of fault that a text may have, in the order in which they are looked for:
/// two of the tokens, three of the grammar, five of names, eight of types, and one of availability.
#[derive(Clone, Copy, Debug, PartialEq, Eq)]
pub enum TextKind {
    BadChar,
    BadNumber,
    Syntax,
    UnknownOpcode,
    Unsupported,
    Duplicate,
    Undefined,
    NumberRange,
    Untyped,
    TooLarge,
    NoTerminator,
    EntryTarget,
    CountMismatch,
    TypeMismatch,
    Convention,
    SignatureMismatch,
    SlotRange,
    TagPlace,
    NotAvailable,
}

impl TextKind {
    ghost use Rattle.clif_lex.specs.Faults.{kind_name};

    /// The kind as users see it.
    pub fn name(&self) -> &'static str
        ensures { result.now ≡ kind_name self.now }
    {
        match self {
            TextKind::BadChar => "BadChar",
            TextKind::BadNumber => "BadNumber",
            TextKind::Syntax => "Syntax",
            TextKind::UnknownOpcode => "UnknownOpcode",
            TextKind::Unsupported => "Unsupported",
            TextKind::Duplicate => "Duplicate",
            TextKind::Undefined => "Undefined",
            TextKind::NumberRange => "NumberRange",
            TextKind::Untyped => "Untyped",
            TextKind::TooLarge => "TooLarge",
            TextKind::NoTerminator => "NoTerminator",
            TextKind::EntryTarget => "EntryTarget",
            TextKind::CountMismatch => "CountMismatch",
            TextKind::TypeMismatch => "TypeMismatch",
            TextKind::Convention => "Convention",
            TextKind::SignatureMismatch => "SignatureMismatch",
            TextKind::SlotRange => "SlotRange",
            TextKind::TagPlace => "TagPlace",
            TextKind::NotAvailable => "NotAvailable",
        }
    }
}

impl fmt::Display for TextKind {
    fn fmt<W: fmt::Write>(&self, f: &mut fmt::Formatter<W>) -> fmt::Result {
        f.write_str(match self {
            TextKind::BadChar => "no token begins here",
            TextKind::BadNumber => "this is neither a number nor a source location",
            TextKind::Syntax => "the text does not go on like this",
            TextKind::UnknownOpcode => "there is no such opcode",
            TextKind::Unsupported => "this part of CLIF is left out",
            TextKind::Duplicate => "the name is defined before",
            TextKind::Undefined => "the name is not defined",
            TextKind::NumberRange => "the number is too large or too small",
            TextKind::Untyped => "the type is not known from the lines before",
            TextKind::TooLarge => "the function or the module is too large",
            TextKind::NoTerminator => "the block does not end with its one terminator",
            TextKind::EntryTarget => "the entry block is the target of a branch",
            TextKind::CountMismatch => "there are more or fewer values than wanted",
            TextKind::TypeMismatch => "a value has another type than wanted",
            TextKind::Convention => "the calling convention does not allow this",
            TextKind::SignatureMismatch => "the signature is not that of the callee",
            TextKind::SlotRange => "the access leaves its stack slot",
            TextKind::TagPlace => "debug tags cannot stand here",
            TextKind::NotAvailable => "a path leads here that does not define the value",
        })
    }
}

/// Why a text is not read.
#[derive(Clone, Copy, Debug, PartialEq, Eq)]
pub enum TextErr {
    /// The first fault, with the byte at which it stands.
    Fault { kind: TextKind, spot: usize },
    /// Memory ran out.
    NoMemory,
}

impl fmt::Display for TextErr {
    fn fmt<W: fmt::Write>(&self, f: &mut fmt::Formatter<W>) -> fmt::Result {
        match self {
            TextErr::Fault { kind, spot } => write!(f, "{kind} at byte {spot}"),
            TextErr::NoMemory => write!(f, "out of memory"),
        }
    }
}

impl Error for TextErr {}

impl From<LexErr> for TextErr {
    ghost use Rattle.clif_lex.specs.Faults.{text_err_of};

    ghost from_gives = { λ e f. f ≡ text_err_of e };

    fn from(err: LexErr) -> Self {
        match err {
            LexErr::BadChar(spot) => TextErr::Fault {
                kind: TextKind::BadChar,
                spot,
            },
            LexErr::BadNumber(spot) => TextErr::Fault {
                kind: TextKind::BadNumber,
                spot,
            },
            LexErr::NoMemory => TextErr::NoMemory,
        }
    }
}

/// Where a byte of a text stands: its line, and its column in bytes, both counted from 1.
#[derive(Clone, Copy, Debug, PartialEq, Eq)]
pub struct Place {
    pub line: u32,
    pub column: u32,
}
