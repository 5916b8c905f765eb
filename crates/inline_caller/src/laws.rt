//! A law of what comes out of a splice: a function without a body, which has it as its contract.
ghost use Rattle.inline_caller.specs.Laws.{SpliceIsDefinitions};

/// Where caller and callee are accepted alone, the splice under the code's numbers is whole, and the definition's up to
/// numbering.
pub fn splice_is_definitions()
    ensures { SpliceIsDefinitions }
{}
