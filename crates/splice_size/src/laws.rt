//! Laws of the size of a splice: functions without a body, each of which has its law as its contract.
ghost use Rattle.splice_size.specs.Laws.{SizeOfSplice, SiteWithin, SizeByCounts};
ghost use Rattle.splice_size.specs.Laws.{RenamedKeepsCounts, SizeAfterUnder, SpliceSizeUnder};
ghost use Rattle.splice_size.specs.Examples.{WorkedSizes};

/// The size of a splice is a number that the caller's size, the line of the call and the callee's counts determine.
pub fn size_of_splice()
    ensures { SizeOfSplice }
{}

/// A call is no larger than the function that it stands in.
pub fn site_within()
    ensures { SiteWithin }
{}

/// A function's size is that of its declarations and of its blocks.
pub fn size_by_counts()
    ensures { SizeByCounts }
{}

/// A function under other numbers of values and blocks has the same counts.
pub fn renamed_keeps_counts()
    ensures { RenamedKeepsCounts }
{}

/// A call under other numbers makes the same of a size.
pub fn size_after_under()
    ensures { SizeAfterUnder }
{}

/// A splice of caller and callee under other numbers has the same size.
pub fn splice_size_under()
    ensures { SpliceSizeUnder }
{}

/// Worked sizes.
pub fn worked_sizes()
    ensures { WorkedSizes }
{}
