//! Laws of the definitions: functions without a body, each of which has its law as its contract.
ghost use Rattle.interp.specs.Entries.{NumbersEnter};

/// A name and numbers that are an entry call are one by the definition of runs: the numbers are values of the
/// parameters of the function that has the name.
pub fn numbers_enter()
    ensures { NumbersEnter }
{}
