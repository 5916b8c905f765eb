//! Laws: functions that do nothing, so that a caller has the law by a call.

ghost use Rattle.canonical_reads.specs.Laws.{NothingTooLarge, NothingUndefined, NothingWrong, NumbersInRange};
ghost use Rattle.canonical_reads.specs.Laws.{OneTextUpToNumbering, OperandsTyped, ReadsAsCanonical};

/// In the canonical text of a writable module each word that is used is defined.
pub fn canonical_text_defines_its_words()
    ensures { NothingUndefined }
{
    text_read_back::laws::writable_text_reads_back();
}

/// Its numbers keep their limits.
pub fn canonical_text_keeps_limits()
    ensures { NumbersInRange }
{
    text_read_back::laws::writable_text_reads_back();
}

/// Where a suffix is left out, the operand that gives the type is defined before.
pub fn canonical_text_tells_types()
    ensures { OperandsTyped }
{
    text_read_back::laws::writable_text_reads_back();
}

/// No function of it is too large, and there are not too many.
pub fn canonical_text_keeps_sizes()
    ensures { NothingTooLarge }
{
    names_read_back::laws::canonical_text_means_canonical();
    clif_meaning::laws::same_size();
    inline_numbering::laws::canonical_is_same();
    inline_numbering::laws::same_is_renamed();
    inline_numbering::laws::renamed_keeps_size();
}

/// It has no fault of names or numbers.
pub fn canonical_text_has_no_fault()
    ensures { NothingWrong }
{
    names_read_back::laws::canonical_text_has_no_duplicate();
    canonical_text_defines_its_words();
    canonical_text_keeps_limits();
    canonical_text_tells_types();
    canonical_text_keeps_sizes();
}

/// The canonical text of a writable module is read as the module under canonical numbers.
pub fn canonical_text_reads_as_canonical()
    ensures { ReadsAsCanonical }
{
    text_read_back::laws::writable_text_reads_back();
    names_read_back::laws::canonical_text_means_canonical();
    canonical_text_has_no_fault();
}

/// Two writable modules have one canonical text exactly where they are the same up to numbering.
pub fn one_text_up_to_numbering()
    ensures { OneTextUpToNumbering }
{
    canonical_text_reads_as_canonical();
    names_read_back::laws::canonical_text_reads_as_nothing_else();
    inline_numbering::laws::numbering_keeps_text();
}
