//! Laws of what a caller takes over: functions without a body, each of which has its law as its contract.
ghost use Rattle.body_import.specs.Examples.{WorkedImport};

/// A worked import.
pub fn worked_import()
    ensures { WorkedImport }
{}
