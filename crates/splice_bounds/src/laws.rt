//! Laws of numbers that are left: functions without a body, each of which has its law as its contract.
ghost use Rattle.splice_bounds.specs.Laws.{PlainCallHasNumbers, TailCallHasNumbers, TryCallHasNumbers};

/// A splice at a plain call that is within the limit of sizes can be made: there are numbers for all that it brings.
pub fn plain_call_has_numbers()
    ensures { PlainCallHasNumbers }
{}

/// So can one at a tail call.
pub fn tail_call_has_numbers()
    ensures { TailCallHasNumbers }
{}

/// So can one at a `try_call`.
pub fn try_call_has_numbers()
    ensures { TryCallHasNumbers }
{}
