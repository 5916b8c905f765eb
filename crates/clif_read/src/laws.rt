//! Laws that speak of the definitions alone. Each is a function that does nothing, so that a caller has the law by a
//! call.

ghost use Rattle.std.specs.Prelude.{◌≡◌, List};
ghost use Rattle.grammar.specs.Rules.{Lexeme, Answers, read, read_all};
ghost use Rattle.token_reader.specs.Values.{seen};
ghost use Rattle.clif_read.specs.Alike.{Alike};
ghost use Rattle.clif_read.specs.ModuleGrammar.{lines, module_rule};
ghost use Rattle.clif_read.specs.LineValues.{lines_value};
ghost use Rattle.clif_read.specs.ModuleValues.{module_value};
ghost use Rattle.clif_read.specs.Modules.{module_at};
ghost use Rattle.clif_read.specs.LetterAttributes.{SameAttributes};
ghost use Rattle.clif_read.specs.LetterLines.{letter_lines, letter_lines_value};
ghost use Rattle.clif_read.specs.LetterModule.{letter_module, letter_module_value};

/// The lines of a block are those of the EBNF, to the letter: the same texts, which mean the same, and the same
/// beginnings. The grammar reads the values of a `return` behind it, and takes what begins with a value as one rule, so
/// that the next token always says which way to go.
pub fn lines_by_the_letter()
    ensures { Alike letter_lines lines letter_lines_value lines_value }
{}

/// The same of whole modules.
pub fn module_by_the_letter()
    ensures { Alike letter_module module_rule letter_module_value module_value }
{}

/// The attributes of a parameter are those of the EBNF, to the letter: any number of the four words in any order, of
/// `uext` and `sext` at most one and of `vmctx` and `sret` at most one. The same texts with the same attributes, and
/// the same beginnings.
pub fn attributes_by_the_letter()
    ensures { SameAttributes }
{}

/// Every list of tokens is one module, in one way, or has a first place where no module goes on.
pub fn one_reading()
    ensures { (tokens : List Lexeme) → Answers module_rule tokens (read_all module_rule tokens) }
{}

/// Reading a module from left to right is reading by the grammar, seen as what its tree means.
pub fn read_by_the_grammar()
    ensures { (tokens : List Lexeme) → module_at tokens ≡ seen module_value (read module_rule tokens) }
{}
