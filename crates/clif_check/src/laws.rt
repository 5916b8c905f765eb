//! Laws of the definitions: functions without a body, each of which has its law as its contract.
ghost use Rattle.clif_check.specs.Laws.{AcceptedByHeads, AcceptedHasNoFault, FaultlessIsAccepted};
ghost use Rattle.clif_check.specs.Laws.{OneFirstFault, OneModule};

/// A text that is accepted has no fault.
pub fn accepted_has_no_fault()
    ensures { AcceptedHasNoFault }
{}

/// A text without a first fault is accepted.
pub fn faultless_is_accepted()
    ensures { FaultlessIsAccepted }
{}

/// A text has at most one first fault, of whatever stage.
pub fn one_first_fault()
    ensures { OneFirstFault }
{}

/// A text is accepted as one module at most.
pub fn one_module()
    ensures { OneModule }
{}

/// A text is accepted where its functions keep their own rules, and their heads declare what they call as it is.
pub fn accepted_by_heads()
    ensures { AcceptedByHeads }
{}
