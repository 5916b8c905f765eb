//! Laws: functions that do nothing, so that a caller has the law by a call.

ghost use Rattle.clifinl.specs.Laws.{CanonicalReadsBack, OneOutput, PrintedReadsBack};

/// The canonical text of an accepted module reads as the module under canonical numbers and as nothing else, and is
/// accepted.
pub fn canonical_text_reads_back()
    ensures { CanonicalReadsBack }
{
    canonical_reads::laws::canonical_text_reads_as_canonical();
    names_read_back::laws::canonical_text_reads_as_nothing_else();
    inline_numbering::laws::canonical_module_is_same();
    inline_acceptance::laws::numbering_keeps_acceptance();
}

/// So does the canonical text of what an accepted text reads as.
pub fn printed_text_reads_back()
    ensures { PrintedReadsBack }
{
    canonical_text_reads_back();
    read_writable::laws::read_is_module();
    read_writable::laws::read_is_writable();
}

/// Two runs by the same words over the same bytes end the same and write the same, where nothing outside fails and
/// memory suffices.
pub fn one_output()
    ensures { OneOutput }
{
    read_writable::laws::read_is_writable();
    program_run::laws::names_differ();
}
