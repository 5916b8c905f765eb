//! The directives of a filetest: what its header lines and its comments ask for, or the first line that asks for
//! nothing that there is.
//!
//! `specs/Commands.antt` reads the words of a header, `specs/Directives.antt` a comment, and `specs/Tests.antt` says to
//! which function a comment belongs and what the comments of a function ask for together.
#![tactic(auto)]

mod blanks;
mod commands;
mod comments;
mod directives;
mod functions;
pub mod laws;
mod marks;
mod names;
mod places;
mod runs;
mod tests;
mod values;

pub use commands::Command;
pub use directives::{Directive, Expectation, LineCheck, LineTest, Wanted};
pub use tests::{DirectiveErr, FunctionTests, RunTest, TestFile, read_tests};
