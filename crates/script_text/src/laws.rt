//! Laws of the grammar of scripts: functions without a body, each of which has its law as its contract.

ghost use Rattle.std.specs.Prelude.{◌≡◌, ℕ, List, Err};
ghost use Rattle.grammar.specs.Rules.{Lexeme, Answers, read_all};
ghost use Rattle.clif_lex.specs.declared.faults.LexErr.{LexErr};
ghost use Rattle.clif_lex.specs.Lexing.{tokens_of};
ghost use Rattle.script_text.specs.Examples.{RefusedScripts, WorkedLists, WorkedScripts};
ghost use Rattle.script_text.specs.Grammar as grammar;
ghost use Rattle.script_text.specs.Laws.{NoneWhereRead, OnePlace};
ghost use Rattle.script_text.specs.Lexed.{TokensBefore};

/// Every list of tokens is one script in one way, or has one first place where no script goes on; and so it is with
/// lists of numbers.
pub fn one_reading()
    ensures scripts { (tokens : List Lexeme) → Answers grammar.script tokens (read_all grammar.script tokens) }
    ensures lists { (tokens : List Lexeme)
        → Answers grammar.number_list tokens (read_all grammar.number_list tokens) }
{}

/// The tokens of a text before a place where none stands are those that stand in the whole text up to there: each is
/// the longest, with only blanks between them.
pub fn tokens_before_a_fault()
    ensures { (text : List ℕ) (fault : LexErr) → tokens_of text ≡ Err fault → TokensBefore text fault }
{}

/// A text has at most one place where no text of a rule goes on, and none where it is one of the rule.
pub fn one_place()
    ensures one { OnePlace }
    ensures none { NoneWhereRead }
{}

/// Worked examples, by computation.
pub fn worked_examples()
    ensures scripts { WorkedScripts }
    ensures refused { RefusedScripts }
    ensures lists { WorkedLists }
{}
