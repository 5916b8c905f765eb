//! Laws: functions that do nothing, so that a caller has the law by a call.

ghost use Rattle.names_read_back.specs.Canonical.{HasNoDuplicate, RawMeansCanonical, ReadsAsNothingElse};
ghost use Rattle.names_read_back.specs.Canonical.{TextMeansCanonical};
ghost use Rattle.names_read_back.specs.ReadNames.{CalleesReadBack, DeclarationsReadBack, InstructionsReadBack};
ghost use Rattle.names_read_back.specs.ReadNames.{LinesAreCanonical, LinesReadBack, NumberingIs};

/// An instruction's raw form means the instruction, under the numbers that the text's numbers mean.
pub fn instructions_read_back()
    ensures { InstructionsReadBack }
{}

/// A line's raw form means the line, whether its suffix is printed or left out.
pub fn lines_read_back()
    ensures { LinesReadBack }
{}

/// The words of a whole function's raw function have the numbers of their places, and its declarations are the
/// function's.
pub fn names_read_back()
    ensures numbering { NumberingIs }
    ensures declarations { DeclarationsReadBack }
    ensures callees { CalleesReadBack }
{}

/// A line of a whole function under the numbers that its text's numbers mean is the line under canonical numbers.
pub fn lines_are_canonical()
    ensures { LinesAreCanonical }
{}

/// The raw module of a writable module means the module under canonical numbers.
pub fn raw_module_means_canonical()
    ensures { RawMeansCanonical }
{}

/// So does whatever raw module the canonical text of a writable module is, with its spots.
pub fn canonical_text_means_canonical()
    ensures { TextMeansCanonical }
{
    text_read_back::laws::writable_text_reads_back();
}

/// Where the canonical text of a writable module is read, it is read as the module under canonical numbers.
pub fn canonical_text_reads_as_nothing_else()
    ensures { ReadsAsNothingElse }
{
    text_read_back::laws::writable_text_reads_back();
    clif_meaning::laws::one_meaning();
}

/// In the canonical text of a writable module nothing is defined twice.
pub fn canonical_text_has_no_duplicate()
    ensures { HasNoDuplicate }
{
    text_read_back::laws::writable_text_reads_back();
}
