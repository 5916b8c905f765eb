//! Laws of the definitions: functions without a body, each of which has its law as its contract.
ghost use Rattle.clif_names.specs.Faults.{OneFirstFault, FirstWhereAny};
ghost use Rattle.clif_names.specs.Examples.{WorkedFaults, WorkedFreedom, WorkedSizes};
ghost use Rattle.clif_names.specs.FunctionNames.{WordsPlaced, ValuesNumbered};
ghost use Rattle.clif_names.specs.Listed.{AllListed, ListedFirst, ListedNone, ChainsEnd};

/// A raw module has at most one first fault.
pub fn one_first_fault()
    ensures { OneFirstFault }
{}

/// No fault is the first exactly where there is none.
pub fn first_where_any()
    ensures { FirstWhereAny }
{}

/// Each fault is among those that are counted out, so one that stands before all of these is the first.
pub fn faults_counted_out()
    ensures listed { AllListed }
    ensures first { ListedFirst }
    ensures none { ListedNone }
    ensures chains { ChainsEnd }
{}

/// The worked texts have these faults and sizes.
pub fn worked_texts()
    ensures faults { WorkedFaults }
    ensures freedom { WorkedFreedom }
    ensures sizes { WorkedSizes }
{}

/// In a function without a fault the names give each word the place of its definition among those of its kind.
pub fn words_placed()
    ensures { WordsPlaced }
{}

/// In a function without a fault the names give each word of a value the number of the value that it stands for.
pub fn values_numbered()
    ensures { ValuesNumbered }
{}
