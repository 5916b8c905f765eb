//! The tests of a text, carried out.
ghost use Rattle.std.specs.Prelude.{◌≡◌, ◌≤◌, true, length, map, All, IfErr, IfOk, OnOk};
ghost use Rattle.std.specs.List.{list_any};
ghost use Rattle.clif_lex.specs.Faults.{text_err_of};
ghost use Rattle.clif_meaning.specs.Meaning.{HasBlocks};
ghost use Rattle.test_directives.specs.Views.{command_of, function_of};
ghost use Rattle.filetest.specs.declared.testing.TestErr.TheVariants.{NoMemory};
ghost use Rattle.filetest.specs.Limits.{IsLimitedCommand};
ghost use Rattle.filetest.specs.Placing.{ArePlaced};
ghost use Rattle.filetest.specs.Refusing.{of_directive_err, of_text_err, IsCheckRefusal};
ghost use Rattle.filetest.specs.Reporting.{IsReportOf};
ghost use Rattle.filetest.specs.Tested.{is_verifier, needs_module, HasFaultLines, IsRefusal, IsReport, IsTestedModule};

use crate::report::{Report, Writer};
use crate::sections::Sections;
use crate::verifying::fault_lines;
use clif_check::check_raw;
use clif_lex::{LexErr, TextErr, TextKind, tokens};
use clif_read::{RawModule, read_raw_alone};
use ir_check::Checked;
use ir_core::Module;
use std::alloc::{AllocError, AllocFailed, Global};
use std::error::Error;
use std::fmt;
use test_directives::{Command, DirectiveErr, FunctionTests, read_tests};

/// Why a text has no report.
#[derive(Clone, Copy, Debug, PartialEq, Eq)]
pub enum TestErr {
    /// The first line with a directive or a `test` that asks for nothing that there is.
    BadDirective(u32),
    /// The first fault of the text, with the byte at which it stands.
    Text { kind: TextKind, spot: usize },
    /// Memory ran out.
    NoMemory,
}

impl fmt::Display for TestErr {
    fn fmt<W: fmt::Write>(&self, f: &mut fmt::Formatter<W>) -> fmt::Result {
        match self {
            TestErr::BadDirective(line) => write!(f, "line {line} has a bad directive"),
            TestErr::Text { kind, spot } => write!(f, "{kind} at byte {spot}"),
            TestErr::NoMemory => write!(f, "out of memory"),
        }
    }
}

impl Error for TestErr {}

impl From<AllocError> for TestErr {
    ghost from_gives = { λ _ e. e ≡ NoMemory };

    fn from(_: AllocError) -> Self {
        TestErr::NoMemory
    }
}

impl<T: Drop> From<AllocFailed<T>> for TestErr {
    ghost from_gives = { λ _ e. e ≡ NoMemory };

    fn from(_: AllocFailed<T>) -> Self {
        TestErr::NoMemory
    }
}

impl From<TextErr> for TestErr {
    ghost from_gives = { λ err e. e ≡ of_text_err err };

    fn from(err: TextErr) -> Self {
        match err {
            TextErr::Fault { kind, spot } => TestErr::Text { kind, spot },
            TextErr::NoMemory => TestErr::NoMemory,
        }
    }
}

impl From<LexErr> for TestErr {
    ghost from_gives = { λ err e. e ≡ of_text_err (text_err_of err) };

    fn from(err: LexErr) -> Self {
        TestErr::from(TextErr::from(err))
    }
}

impl From<DirectiveErr> for TestErr {
    ghost from_gives = { λ err e. e ≡ of_directive_err err };

    fn from(err: DirectiveErr) -> Self {
        match err {
            DirectiveErr::BadDirective(line) => TestErr::BadDirective(line),
            DirectiveErr::NoMemory => TestErr::NoMemory,
        }
    }
}

/// Whether a command is carried out that needs the text to be accepted.
fn is_module_needed(commands: &[Command]) -> bool
    ensures { result ≡ needs_module (map command_of commands.now) }
{
    for i in 0..commands.len() {
        if commands[i].needs_accepted() {
            return true;
        }
    }
    false
}

/// Whether a command is `verifier`.
fn is_verified(command: &Command) -> bool
    ensures { result ≡ is_verifier (command_of command.now) }
{
    match command {
        Command::Verifier => true,
        _ => false,
    }
}

/// Whether one of the commands is `verifier`.
fn are_faults_needed(commands: &[Command]) -> bool
    ensures { result ≡ list_any is_verifier (map command_of commands.now) }
{
    for i in 0..commands.len() {
        if is_verified(&commands[i]) {
            return true;
        }
    }
    false
}

/// The accepted module that a raw module means, where it is needed, and else the empty one.
fn tested_module(alloc: Global, needed: bool, raw: &RawModule) -> Result<Checked, TestErr>
    requires { HasBlocks raw.now }
    ensures tested { IfOk result (λ m. IsTestedModule needed raw.now m) }
    ensures refused { IfErr result (λ e. IsCheckRefusal needed raw.now e) }
{
    if !needed {
        return Ok(Checked::of_accepted(Module::new(alloc)));
    }
    match check_raw(alloc, raw) {
        Ok(checked) => Ok(checked),
        Err(TextErr::Fault { kind, spot }) => Err(TestErr::Text { kind, spot }),
        Err(TextErr::NoMemory) => Err(TestErr::NoMemory),
    }
}

/// The lines of the first faults of the functions, where they are needed.
fn needed_fault_lines(
    alloc: Global,
    needed: bool,
    text: &[u8],
    raw: RawModule,
) -> Result<Vec<Option<u32>>, TestErr>
    requires short { length text.now ≤ 4294967294 }
    requires blocks { HasBlocks raw }
    ensures faults { IfOk result (λ lines. HasFaultLines needed text.now raw lines.items) }
    ensures memory { IfErr result (λ e. e ≡ NoMemory) }
{
    if needed {
        fault_lines(alloc, text, &raw)
    } else {
        Ok(Vec::new(alloc))
    }
}

/// The report of all commands, each of which is carried out once, however often it stands there.
fn report_of(
    alloc: Global,
    commands: &[Command],
    checked: &Checked,
    tests: &[FunctionTests],
    faults: &[Option<u32>],
) -> Result<Report, AllocError>
    requires limited { All IsLimitedCommand (map command_of commands.now) }
    requires placed { ArePlaced checked.now tests.now }
    ensures { IfOk result (IsReportOf checked.now (map function_of tests.now) faults.now
        (map command_of commands.now)) }
{
    let mut out = Writer::new(alloc);
    let mut sections = Sections::new(alloc);
    for i in 0..commands.len() {
        sections.tell(alloc, &commands[i], checked, tests, faults, &mut out)?;
    }
    out.finish()
}

/// Carries out what the header lines of a text ask for, and tells of each check. The text has to be accepted where a
/// command other than `verifier` is carried out; else its tokens and its grammar alone refuse it. Each different command
/// takes time linear in the text, but for logarithms, for the steps of its runs, and for `not:` tests, each of which is
/// compared with each line of its range. One that stands there again takes time linear in what the report tells of it.
///
/// # Errors
///
/// The first fault of the tokens or the grammar; then the first line with a bad directive; then the first fault of the
/// names and of the rules. `NoMemory`.
pub fn run_tests(alloc: Global, text: &[u8]) -> Result<Report, TestErr>
    requires short { length text.now ≤ 4294967294 }
    ensures report { IfOk result (λ report. IsReport text.now report) }
    ensures refused { IfErr result (λ e. IsRefusal text.now e) }
{
    let tokens = tokens(alloc, text)?;
    let raw = read_raw_alone(alloc, text, &tokens)?;
    let file = read_tests(alloc, text, &tokens, &raw)?;
    let commands = file.commands.as_slice();
    let functions = file.functions.as_slice();
    let checked = tested_module(alloc, is_module_needed(commands), &raw)?;
    let faults = needed_fault_lines(alloc, are_faults_needed(commands), text, raw)?;
    let report = report_of(alloc, commands, &checked, functions, faults.as_slice())?;
    Ok(report)
}
