//! Laws of the definitions: functions without a body, each of which has its law as its contract.
ghost use Rattle.ir_check.specs.Laws.{AcceptedHasNone, AcceptedOrFault, AllPassed, AtBlock, AtCallee, AtLine};
ghost use Rattle.ir_check.specs.Laws.{AtMostOne, EarlyFault, FaultByTests, FaultIsReal, FaultlessIsAccepted};
ghost use Rattle.ir_check.specs.Laws.{InParts, RulesAreTests};

/// A module has at most one first fault.
pub fn at_most_one()
    ensures { AtMostOne }
{}

/// A first fault is a rule that is not kept.
pub fn fault_is_real()
    ensures { FaultIsReal }
{}

/// An accepted module has no first fault.
pub fn accepted_has_none()
    ensures { AcceptedHasNone }
{}

/// A module without a first fault is accepted.
pub fn faultless_is_accepted()
    ensures { FaultlessIsAccepted }
{}

/// A module is accepted exactly where all that is tried passes.
pub fn all_passed()
    ensures { AllPassed }
{}

/// A module is accepted or has a first fault, where it is known whether each rule is kept.
pub fn accepted_or_fault()
    ensures { AcceptedOrFault }
{}

/// Each rule is a test.
pub fn rules_are_tests()
    ensures { RulesAreTests }
{}

/// The first fault is what the tests find.
pub fn fault_by_tests()
    ensures { FaultByTests }
{}

/// The first fault by another rule than availability is what the tests find without one for availability.
pub fn early_fault()
    ensures { EarlyFault }
{}

/// The first fault of two parts in order.
pub fn in_parts()
    ensures { InParts }
{}

/// A test at a callee declaration.
pub fn at_callee()
    ensures { AtCallee }
{}

/// A test at a block.
pub fn at_block()
    ensures { AtBlock }
{}

/// A test at a line.
pub fn at_line()
    ensures { AtLine }
{}
