//! Laws: functions that do nothing, so that a caller has the law by a call.

ghost use Rattle.printed_reads.specs.Laws.{CanonicalKeepsText, OneTextOfRead, PrintedReadsSame, PrintingIsRead};
ghost use Rattle.printed_reads.specs.Laws.{PrintingIsStable};

/// The printed text of what is read is read as it again, under canonical numbers.
pub fn printing_is_read()
    ensures { PrintingIsRead }
{
    read_writable::laws::read_is_module();
    read_writable::laws::read_is_writable();
    canonical_reads::laws::canonical_text_reads_as_canonical();
}

/// A module under canonical numbers has the text of the module.
pub fn canonical_keeps_text()
    ensures { CanonicalKeepsText }
{
    inline_numbering::laws::canonical_module_is_same();
    inline_numbering::laws::numbering_keeps_text();
}

/// Whatever that text is read as is the same up to numbering.
pub fn printed_reads_same()
    ensures { PrintedReadsSame }
{
    read_writable::laws::read_is_module();
    read_writable::laws::read_is_writable();
    names_read_back::laws::canonical_text_reads_as_nothing_else();
    inline_numbering::laws::canonical_module_is_same();
}

/// And is printed as the same text.
pub fn printing_is_stable()
    ensures { PrintingIsStable }
{
    printed_reads_same();
    inline_numbering::laws::numbering_keeps_text();
}

/// Two texts are read as modules that are printed alike exactly where these are the same up to numbering.
pub fn one_text_of_read()
    ensures { OneTextOfRead }
{
    read_writable::laws::read_is_module();
    read_writable::laws::read_is_writable();
    canonical_reads::laws::one_text_up_to_numbering();
}
