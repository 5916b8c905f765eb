//! Laws of the definitions: functions without a body, each of which has its law as its contract.
ghost use Rattle.ir_semantics.specs.NeverStuck.{NeverStuck};

/// An accepted module never gets stuck: no run of an entry call lacks a value, a block, a callee, an operand of the
/// right type or a place in a slot.
pub fn accepted_never_sticks()
    ensures { NeverStuck }
{}
