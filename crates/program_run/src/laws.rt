//! Laws of the definitions: functions without a body, each of which has its law as its contract.
ghost use Rattle.program_run.specs.EntryName.{NamesDiffer};
ghost use Rattle.program_run.specs.Examples.{WorkedRuns};

/// The texts of these runs, to the byte.
pub fn worked_runs()
    ensures { WorkedRuns }
{}

/// No two names have one spelling in the canonical text.
pub fn names_differ()
    ensures { NamesDiffer }
{}
