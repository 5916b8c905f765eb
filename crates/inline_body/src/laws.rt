//! The part of a splice that takes no memory.
ghost use Rattle.inline_body.specs.Fits.{TableFits};
ghost use Rattle.inline_body.specs.Within.{LastBodyIsCopied, WithinBodyIsInlined};

/// The body of the splice at a plain call is what the code makes of the callee's blocks.
pub fn within_body_is_inlined()
    ensures { WithinBodyIsInlined }
{}

/// The same at a tail call: each line of the callee under its numbers, with the site's tags where it takes tags.
pub fn last_body_is_copied()
    ensures { LastBodyIsCopied }
{}

/// The numbers that `number_blocks` gives are those that the blocks get as they are put.
pub fn table_fits()
    ensures { TableFits }
{}
