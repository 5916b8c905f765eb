//! How a run of the program ends.
ghost use Rattle.std.specs.Prelude.{◌≡◌};

use clif_lex::{Place, TextKind};

/// Why an input is refused.
#[derive(Clone, Copy, Debug, PartialEq, Eq)]
pub enum Refusal {
    /// The text has a fault of this kind at this place.
    Text(TextKind, Place),
    /// The source has more bytes than a text may have.
    TooLong,
    /// The script goes no further at this byte of its text, counted from 1.
    BadScript(u64),
    /// No function has a name that is spelled so.
    NoEntry,
    /// The arguments are no list of numbers, not as many as the parameters, or one is no value of its parameter's type.
    BadArgs,
    /// The first line with a directive or a `test` that asks for nothing that there is.
    BadDirective(u32),
}

/// How a run of the program ends.
#[derive(Clone, Copy, Debug, PartialEq, Eq)]
pub enum Status {
    /// What was asked for was written.
    Done,
    /// The input is refused.
    Refused(Refusal),
    /// The words ask for nothing that the program does.
    Usage,
    /// The source failed.
    ReadFault,
    /// The sink failed.
    WriteFault,
    /// Memory ran out.
    NoMemory,
    /// What was asked for was written: the report of tests of which some failed.
    ChecksFailed,
}

impl Status {
    ghost use Rattle.clifinl.specs.Codes.{code_of};

    /// The exit status of the process: 0 to 6 in the order of the variants.
    pub fn code(&self) -> u8
        ensures { result ≡ code_of self.now }
    {
        match self {
            Status::Done => 0,
            Status::Refused(_) => 1,
            Status::Usage => 2,
            Status::ReadFault => 3,
            Status::WriteFault => 4,
            Status::NoMemory => 5,
            Status::ChecksFailed => 6,
        }
    }
}
