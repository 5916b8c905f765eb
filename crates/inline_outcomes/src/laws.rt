//! Laws of outcomes: functions without a body, each of which has its law as its contract.
ghost use Rattle.inline_outcomes.specs.Laws.{NumberingKeeps, NumberingKeepsRuns, SpliceKeeps, SpliceKeepsRuns};

/// A direct call of any kind, replaced by the body of its callee, keeps every outcome of a run that lacks nothing and
/// reads no unwritten byte of a slot, with at most twice as many steps.
pub fn splice_keeps_runs()
    ensures { SpliceKeepsRuns }
{}

/// The outcomes of a module do not depend on the numbers of its values and blocks.
pub fn numbering_keeps_runs()
    ensures { NumberingKeepsRuns }
{}

/// In an accepted module a direct call of any kind, replaced by the body of its callee, keeps every outcome of every
/// entry call whose run reads no unwritten byte of a slot, with at most twice as many steps, and adds none.
pub fn splice_keeps()
    ensures { SpliceKeeps }
{
    ir_semantics::laws::accepted_never_sticks();
}

/// A module that is the same as an accepted one up to the numbers of values and blocks has the same outcomes.
pub fn numbering_keeps()
    ensures { NumberingKeeps }
{
    ir_semantics::laws::accepted_never_sticks();
}
