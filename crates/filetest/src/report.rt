//! The report of a filetest.
ghost use Rattle.std.specs.Prelude.{◌≡◌, ◌+◌, ◌≤◌, [], ◌∷◌, ◌++◌, ℕ, decimal, length, IfOk, OnOk};
ghost use Rattle.test_directives.specs.Views.{command_of};
ghost use Rattle.filetest.specs.Report.{check_line, failure_text, labelled, skip_text, last_line};
ghost use Rattle.filetest.specs.Telling.{Puts, Tells};
ghost use Rattle.filetest.specs.Views.{failure_of, pair_of};

use ir_core::List;
use std::alloc::{AllocError, Global};
use std::marker::Model;
use test_directives::Command;

/// What was tried: a line for each check, with two more where it failed, a line for each command that was left out, and
/// the counts.
#[derive(Drop)]
pub struct Report {
    pub text: List<u8>,
    pub passed: u64,
    pub failed: u64,
    pub skipped: u64,
}

/// What a failed check expected, and what it got.
#[derive(Drop)]
pub(crate) struct Pair {
    pub expected: Vec<u8>,
    pub got: Vec<u8>,
}

impl Pair {
    /// The pair of two texts.
    pub(crate) fn of(alloc: Global, expected: &[u8], got: &[u8]) -> Result<Pair, AllocError>
        ensures { IfOk result (λ pair. (pair.expected.items ≡ expected.now) × (pair.got.items ≡ got.now)) }
    {
        Ok(Pair {
            expected: Vec::from_slice(alloc, expected)?,
            got: Vec::from_slice(alloc, got)?,
        })
    }
}

/// A report in the making.
#[derive(Drop)]
pub(crate) struct Writer {
    text: Vec<u8>,
    passed: u64,
    failed: u64,
    skipped: u64,
}

impl Model for Writer {
    ghost use Rattle.std.specs.Prelude.{◌+◌, ◌≤◌, length};
    ghost use Rattle.filetest.specs.Telling.{Told};

    ghost Value = { Told };

    ghost view = { λ w. record {
      text = w.text.items;
      passed = w.passed;
      failed = w.failed;
      skipped = w.skipped;
    } };

    // Each line of the text is counted at most once.
    ghost invariant = { λ w. w.passed + w.failed + w.skipped ≤ length w.text.items };
}

impl Writer {
    /// An empty report.
    pub(crate) fn new(alloc: Global) -> Writer
        ensures text { result.text ≡ [] }
        ensures counts { (result.passed ≡ 0) × (result.failed ≡ 0) × (result.skipped ≡ 0) }
    {
        Writer {
            text: Vec::new(alloc),
            passed: 0,
            failed: 0,
            skipped: 0,
        }
    }

    fn put(&mut self, bytes: &[u8]) -> Result<(), AllocError>
        ensures { OnOk result (Puts self.old self.new bytes.now) }
    {
        self.text.extend_from_slice(bytes)
    }

    fn put_number(&mut self, number: u64) -> Result<(), AllocError>
        ensures { OnOk result (Puts self.old self.new (decimal number)) }
    {
        let mut buffer = itoa::Buffer::new();
        self.put(buffer.format(number).as_bytes())
    }

    fn put_check(&mut self, command: &Command, name: &[u8], line: u32) -> Result<(), AllocError>
        ensures { OnOk result (Puts self.old self.new
            (check_line (command_of command.now) (record { name = name.now; line = line; failure = None }))) }
    {
        self.put(command.word())?;
        self.put(b" ")?;
        self.put(name)?;
        self.put(b" line ")?;
        self.put_number(u64::from(line))?;
        self.put(b"\n")
    }

    fn put_labelled(&mut self, label: &[u8], line: &[u8]) -> Result<(), AllocError>
        ensures { OnOk result (Puts self.old self.new (labelled label.now line.now)) }
    {
        self.put(label)?;
        self.put(line)?;
        self.put(b"\n")
    }

    fn put_failure(&mut self, pair: &Pair) -> Result<(), AllocError>
        ensures { OnOk result (Puts self.old self.new (failure_text (pair_of pair.now))) }
    {
        self.put_labelled(b"  expected ", pair.expected.as_slice())?;
        self.put_labelled(b"  got ", pair.got.as_slice())?;
        Ok(())
    }

    /// Tells of a check, which failed where there is a pair.
    pub(crate) fn check(
        &mut self,
        command: &Command,
        name: &[u8],
        line: u32,
        failure: Option<Pair>,
    ) -> Result<(), AllocError>
        ensures { OnOk result (Tells self.old self.new (command_of command.now)
            (record { name = name.now; line = line; failure = failure_of failure } ∷ [])) }
    {
        match failure {
            None => {
                self.put(b"pass ")?;
                self.put_check(command, name, line)?;
                self.passed += 1;
            }
            Some(pair) => {
                self.put(b"fail ")?;
                self.put_check(command, name, line)?;
                self.put_failure(&pair)?;
                self.failed += 1;
            }
        }
        Ok(())
    }

    /// Tells of a command that is left out.
    pub(crate) fn skip(&mut self, command: &Command) -> Result<(), AllocError>
        ensures text { OnOk result (self.new.text ≡ self.old.text ++ skip_text (command_of command.now)) }
        ensures counts { OnOk result
            ((self.new.passed ≡ self.old.passed) × (self.new.failed ≡ self.old.failed)
            × (self.new.skipped ≡ self.old.skipped + 1)) }
    {
        self.put(b"skip ")?;
        self.put(command.word())?;
        self.put(b"\n")?;
        self.skipped += 1;
        Ok(())
    }

    /// Tells again what another report in the making was told.
    pub(crate) fn append(&mut self, section: &Writer) -> Result<(), AllocError>
        ensures text { OnOk result (self.new.text ≡ self.old.text ++ section.now.text) }
        ensures counts { OnOk result
            ((self.new.passed ≡ self.old.passed + section.now.passed)
            × (self.new.failed ≡ self.old.failed + section.now.failed)
            × (self.new.skipped ≡ self.old.skipped + section.now.skipped)) }
    {
        self.text.extend_from_slice(section.text.as_slice())?;
        self.passed += section.passed;
        self.failed += section.failed;
        self.skipped += section.skipped;
        Ok(())
    }

    /// The report, with its last line.
    pub(crate) fn finish(mut self) -> Result<Report, AllocError>
        ensures text { IfOk result (λ report. report.text
            ≡ self.text ++ last_line self.passed self.failed self.skipped) }
        ensures counts { IfOk result (λ report. (report.passed ≡ self.passed) × (report.failed ≡ self.failed)
            × (report.skipped ≡ self.skipped)) }
    {
        let passed = self.passed;
        let failed = self.failed;
        let skipped = self.skipped;
        self.put_number(passed)?;
        self.put(b" passed, ")?;
        self.put_number(failed)?;
        self.put(b" failed, ")?;
        self.put_number(skipped)?;
        self.put(b" skipped\n")?;
        Ok(Report {
            text: List::from_vec(self.text),
            passed,
            failed,
            skipped,
        })
    }
}
