//! Laws of the definitions: functions without a body, each of which has its law as its contract.
ghost use Rattle.filetest.specs.Examples.{WorkedLines, WorkedReports};
ghost use Rattle.filetest.specs.Laws.{CanTestIsNotRefused, OneReport, ReportedCanBeTested};

/// These lines pass and fail these tests.
pub fn worked_lines()
    ensures { WorkedLines }
{}

/// The lines of these checks, to the byte.
pub fn worked_reports()
    ensures { WorkedReports }
{}

/// A text has one report at most.
pub fn one_report()
    ensures { OneReport }
{}

/// A text that has a report can be tested.
pub fn reported_can_be_tested()
    ensures { ReportedCanBeTested }
{}

/// A text that can be tested has a report, unless memory runs out.
pub fn can_test_is_not_refused()
    ensures { CanTestIsNotRefused }
{}
