//! What comments ask for.
use clk_num::TrapCode;
use host_script::Script;
use ir_core::List;

/// The end that a run is to have.
#[derive(Drop)]
pub enum Expectation {
    /// It returns these numbers.
    Values(List<i128>),
    Trap(TrapCode),
    Throw { tag: u32, p0: u64, p1: u64 },
}

/// What is wanted of a run.
#[derive(Drop)]
pub enum Wanted {
    /// That it returns.
    Return,
    /// `==`: that it has this end.
    Equal(Expectation),
    /// `!=`: that it returns, and has not this end.
    Unequal(Expectation),
}

/// What a line of text is to be.
#[derive(Clone, Copy, PartialEq, Eq)]
pub enum LineCheck {
    /// A line further on contains the text.
    Check,
    /// The next line contains it.
    Nextln,
    /// No line up to the next taken one contains it.
    Not,
}

/// A `check:`, `nextln:` or `not:` with its text.
#[derive(Drop)]
pub struct LineTest {
    pub check: LineCheck,
    pub text: List<u8>,
}

/// What a comment asks for.
#[derive(Drop)]
pub enum Directive {
    Run {
        /// The name of the function, spelled as in the canonical text.
        name: List<u8>,
        numbers: List<i128>,
        wanted: Wanted,
    },
    Host(Script),
    Trace(List<u8>),
    Line(LineTest),
    Error,
}
