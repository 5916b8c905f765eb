//! Laws of the definitions: functions without a body, each of which has its law as its contract.
ghost use Rattle.std.specs.Prelude.{◌≡◌, List, true};
ghost use Rattle.grammar.specs.Laws.{OneStop};
ghost use Rattle.grammar.specs.Rules.{Lexeme, Rule, good, Answers, read_all};

/// Where the next token of a rule always says which way to go, reading a list of tokens gives its one tree, or
/// the first place where no text of the rule goes on.
pub fn exact_reading()
    ensures { (rule : Rule) → good rule ≡ true → (tokens : List Lexeme) → Answers rule tokens (read_all rule tokens) }
{}

/// A list of tokens has at most one place where no text of a rule goes on, and at that place one kind of fault.
pub fn one_stop()
    ensures { OneStop }
{}
