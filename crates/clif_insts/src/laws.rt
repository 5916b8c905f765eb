//! Laws of the grammar.

ghost use Rattle.std.specs.Prelude.{◌≡◌, ℕ, List};
ghost use Rattle.grammar.specs.Rules.{Lexeme, Answers, Derives, Tree, read, read_all};
ghost use Rattle.clif_words.specs.declared.class.Class.{Class};
ghost use Rattle.clif_words.specs.TextTokens.{AreTextTokens};
ghost use Rattle.clif_insts.specs.declared.opening.Opening.{Opening};
ghost use Rattle.clif_insts.specs.Grammar.{excepted, inst};
ghost use Rattle.clif_insts.specs.FlagLetter.{FlagsLetter};
ghost use Rattle.token_reader.specs.Values.{seen};
ghost use Rattle.clif_insts.specs.InstValues.{inst_value};
ghost use Rattle.clif_insts.specs.Forms.{inst_at};
ghost use Rattle.clif_insts.specs.Marks.{MarksFormed, inst_marks};
ghost use Rattle.clif_insts.specs.OfForm.{InstFormed};

/// Behind what stands before it every list of tokens is one instruction, whose values after `return` stand behind it,
/// or has a first place where no instruction goes on.
pub fn one_reading()
    ensures { (opening : Opening) (tokens : List Lexeme)
        → Answers (inst (excepted opening)) tokens (read_all (inst (excepted opening)) tokens) }
{}

/// Reading an instruction from left to right is reading by the grammar, seen as what its tree means.
pub fn read_by_the_grammar()
    ensures { (opening : Opening) (tokens : List Lexeme)
        → inst_at opening tokens ≡ seen (inst_value (excepted opening)) (read (inst (excepted opening)) tokens) }
{}

/// The flags of the grammar are those of the text form: any number of the nine flags, `big` and `little` not together.
/// These have the same texts, with the same values, the same beginnings, and the same refused words.
pub fn flags_by_the_letter()
    ensures { (tokens : List Lexeme) → FlagsLetter tokens }
{}

/// Wherever the grammar derives an instruction from tokens of a text, its operands and its suffix are of the opcode's
/// form, and the words and numbers in it stand in the text in their order.
pub fn derived_insts_are_formed()
    ensures { (excepted : List Class) (len : ℕ) (tokens : List Lexeme) (v : Tree (inst excepted)) →
        AreTextTokens len tokens → Derives (inst excepted) tokens v
        → InstFormed (inst_value excepted v) × MarksFormed len (inst_marks (inst_value excepted v)) }
{}
