//! Laws of the definitions: functions without a body, each of which has its law as its contract.
ghost use Rattle.clif_meaning.specs.Examples.{WorkedMeanings, WorkedSpots};
ghost use Rattle.clif_meaning.specs.Meaning.{HasMeaning, MeantIsModule, OneMeaning, SameSize};

/// The worked texts have these meanings and spots.
pub fn worked_texts()
    ensures meanings { WorkedMeanings }
    ensures spots { WorkedSpots }
{}

/// A raw module without a fault means at most one module.
pub fn one_meaning()
    ensures { OneMeaning }
{}

/// The size that decides whether a function is too large is that of the function which the text means.
pub fn same_size()
    ensures { SameSize }
{}

/// What a raw module without a fault means is a module, where each function has a block.
pub fn meant_is_module()
    ensures { MeantIsModule }
{}

/// A raw module without a fault means some module.
pub fn has_meaning()
    ensures { HasMeaning }
{}
