//! Filetests: what the header lines and the comments of a text ask for is tried, and a report tells of each check.
//!
//! `specs/Report.antt` says how checks are told of, `specs/LineTests.antt`, `specs/Ends.antt` and `specs/Checks.antt`
//! what each command checks, and `specs/Tested.antt` what a text's report is, or why it has none.
#![tactic(auto)]

mod inlining;
pub mod laws;
mod line_checks;
mod lines;
mod report;
mod runs;
mod sections;
mod testing;
mod texts;
mod verifying;

pub use report::Report;
pub use testing::{TestErr, run_tests};
