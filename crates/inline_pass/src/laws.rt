//! Laws of finished bodies: functions without a body, each of which has its law as its contract.
ghost use Rattle.inline_pass.specs.FinishedLaws.{FinishedEquation, FinishedKeep, PassIsFinished};
ghost use Rattle.inline_pass.specs.FinishedLaws.{RenumberedFinishedKeep};
ghost use Rattle.inline_pass.specs.OtherBodies.{FinishedRespectNumbers};
ghost use Rattle.inline_pass.specs.FinishedAcceptance.{FinishedAccepted, FinishedWritable, RenumberedFinishedAccepted};
ghost use Rattle.inline_pass.specs.FinishedAcceptance.{RenumberedFinishedWritable};

/// The finished body of a function of a module is its own text, with the finished bodies of functions in other pieces
/// at its sites, as the policy takes them: the recursion ends, since a function in another piece reaches less than
/// its caller.
pub fn finished_equation()
    ensures { FinishedEquation }
{}

/// The pass in an order that has each function once, behind those in other pieces that it calls, gives every function
/// its finished body, in the module's order.
pub fn pass_is_finished()
    ensures { PassIsFinished }
{}

/// The module of finished bodies of an accepted module has the outcomes of the module: each outcome of an entry call
/// whose run reads no unwritten byte of a slot is one of the finished bodies, and the other way round.
pub fn finished_keep()
    ensures { FinishedKeep }
{
    ir_semantics::laws::accepted_never_sticks();
}

/// A module that is the finished bodies of an accepted module up to the numbers of values and blocks has the outcomes
/// of the accepted module.
pub fn renumbered_finished_keep()
    ensures { RenumberedFinishedKeep }
{
    ir_semantics::laws::accepted_never_sticks();
}

/// The finished bodies of an accepted module are an accepted module, for every policy.
pub fn finished_stay_accepted()
    ensures { FinishedAccepted }
{}

/// A module that is the finished bodies of an accepted module up to the numbers of values and blocks is accepted.
pub fn renumbered_finished_stay_accepted()
    ensures { RenumberedFinishedAccepted }
{}

/// The finished bodies of an accepted and writable module are writable, where the policy's caller size is within the
/// limit of a text.
pub fn finished_stay_writable()
    ensures { FinishedWritable }
{}

/// A module that is such finished bodies up to the numbers of values and blocks is writable.
pub fn renumbered_finished_stay_writable()
    ensures { RenumberedFinishedWritable }
{}

/// A function finished with bodies that are the finished ones up to numbering is the finished one up to numbering,
/// with as many sites inlined.
pub fn finished_respect_numbers()
    ensures { FinishedRespectNumbers }
{}
