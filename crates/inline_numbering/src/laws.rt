//! Laws of numbers: functions without a body, each of which has its law as its contract.
ghost use Rattle.inline_numbering.specs.Renamed.{CanonicalIsSame, CanonicalModuleIsSame, NumberingKeepsText};
ghost use Rattle.inline_numbering.specs.Renamed.{RenamedIsSame, RenamedKeepsSize, SameIsRenamed};
ghost use Rattle.inline_numbering.specs.Laws.{SidesCarry, SpliceCarried, SpliceOfAnyNumbers, SpliceRenamed};
ghost use Rattle.inline_numbering.specs.Laws.{SpliceRespectsNumbers, SpliceStaysWhole};

/// A function under other numbers of values and blocks, where the numbers differ, has the same canonical form.
pub fn renamed_is_same()
    ensures { RenamedIsSame }
{}

/// And the same size.
pub fn renamed_keeps_size()
    ensures { RenamedKeepsSize }
{}

/// Functions that are the same up to numbering are one another under other numbers.
pub fn same_is_renamed()
    ensures { SameIsRenamed }
{}

/// Functions that are the same up to numbering, at places that correspond, have splices that are the same up to
/// numbering.
pub fn splice_respects_numbers()
    ensures { SpliceRespectsNumbers }
{}

/// Whatever numbers a splice is given, those of the definition are carried to them.
pub fn sides_carry()
    ensures { SidesCarry }
{}

/// The blocks of a splice under other numbers are those of the splice of caller and callee under other numbers.
pub fn splice_carried()
    ensures { SpliceCarried }
{}

/// So is the whole splice, with the types of its values.
pub fn splice_renamed()
    ensures { SpliceRenamed }
{}

/// A splice whose numbers are in range, as the code's are, is whole where the splice of the definition is well-formed.
pub fn splice_stays_whole()
    ensures { SpliceStaysWhole }
{}

/// A splice of two functions that are accepted alone, by any numbers that are in range, as the code's are: it is whole,
/// and the definition's up to numbering.
pub fn splice_of_any_numbers()
    ensures { SpliceOfAnyNumbers }
{}

/// Modules that are the same up to numbering have one canonical text.
pub fn numbering_keeps_text()
    ensures { NumberingKeepsText }
{}

/// A well-formed function is the same as its canonical form.
pub fn canonical_is_same()
    ensures { CanonicalIsSame }
{}

/// So is a module of well-formed functions.
pub fn canonical_module_is_same()
    ensures { CanonicalModuleIsSame }
{}
