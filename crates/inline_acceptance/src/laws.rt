//! Laws of acceptance: functions without a body, each of which has its law as its contract.
ghost use Rattle.inline_acceptance.specs.Alone.{SpliceAlone};
ghost use Rattle.inline_acceptance.specs.Laws.{NumberingAccepted, NumberingWritable, SpliceAccepted, SpliceWritable};

/// The splice of two functions of an accepted module is accepted: the module with it is one again, and every rule
/// holds in it.
pub fn splice_stays_accepted()
    ensures { SpliceAccepted }
{}

/// The splice of two functions of an accepted and writable module is writable, where its size is within the limit of a
/// text.
pub fn splice_stays_writable()
    ensures { SpliceWritable }
{}

/// The splice of two functions, each well-formed and accepted alone, is well-formed; and it is accepted alone where the
/// callee states the caller's signature wherever it declares the caller.
pub fn splice_is_accepted_alone()
    ensures { SpliceAlone }
{}

/// Of two modules that are the same up to the numbers of values and blocks, one is accepted where the other is.
pub fn numbering_keeps_acceptance()
    ensures { NumberingAccepted }
{}

/// Of two modules that are the same up to the numbers of values and blocks, one is writable where the other is.
pub fn numbering_keeps_writable()
    ensures { NumberingWritable }
{}
