//! Laws: functions that do nothing, so that a caller has the law by a call.

ghost use Rattle.inlined_reads.specs.Laws.{InlinedIsKept, InlinedTextIsOne};

/// The text of the finished bodies of what an accepted text reads as is read back, accepted, and has its outcomes.
pub fn inlined_text_is_kept()
    ensures { InlinedIsKept }
{
    read_writable::laws::read_is_module();
    read_writable::laws::read_is_writable();
    canonical_reads::laws::canonical_text_reads_as_canonical();
    names_read_back::laws::canonical_text_reads_as_nothing_else();
    inline_numbering::laws::canonical_module_is_same();
    inline_pass::laws::finished_stay_accepted();
    inline_pass::laws::finished_stay_writable();
    inline_pass::laws::finished_keep();
    inline_pass::laws::renumbered_finished_stay_accepted();
    inline_pass::laws::renumbered_finished_keep();
}

/// A module that is the finished bodies up to the numbers of values and blocks, as a tool answers it, has their text.
pub fn inlined_text_is_one()
    ensures { InlinedTextIsOne }
{
    inline_numbering::laws::numbering_keeps_text();
}
