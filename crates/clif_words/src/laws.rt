//! Laws of the words and of the tokens of a text.

ghost use Rattle.std.specs.Prelude.{◌≡◌, ℕ, List, Ok, length};
ghost use Rattle.clif_lex.specs.declared.spans.Token.{Token};
ghost use Rattle.clif_lex.specs.Lexing.{tokens_of};
ghost use Rattle.ir_core.specs.Module.{Instruction};
ghost use Rattle.clif_words.specs.Lexemes.{lexemes};
ghost use Rattle.clif_words.specs.TextTokens.{AreTextTokens};
ghost use Rattle.clif_words.specs.Printed.{BeginsWithWord};

/// The canonical text of an instruction begins with the word that the table has for its opcode.
pub fn printed_words()
    ensures { (i : Instruction) → BeginsWithWord i }
{}

/// The tokens of a text stand in it in their order, with numbers of 64 bits and names of name bytes, and the word of an
/// opcode is of the class of the opcode's form.
pub fn text_tokens()
    ensures { (text : List ℕ) (tokens : List Token) → tokens_of text ≡ Ok tokens
        → AreTextTokens (length text) (lexemes text tokens) }
{}
