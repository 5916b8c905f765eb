//! Laws of the definitions: functions without a body, each of which has its law as its contract.
ghost use Rattle.std.specs.Prelude.{List};
ghost use Rattle.grammar.specs.Rules.{Lexeme, Answers, read_all};
ghost use Rattle.test_directives.specs.Examples.{RefusedRuns, WorkedComments, WorkedHeaders, WorkedRuns};
ghost use Rattle.test_directives.specs.Frame as frame;

/// Every list of bytes is one `run:` in one way, or has one first place where no `run:` goes on.
pub fn one_reading()
    ensures { (tokens : List Lexeme) → Answers frame.run tokens (read_all frame.run tokens) }
{}

/// These header lines ask for these commands.
pub fn worked_headers()
    ensures { WorkedHeaders }
{}

/// These comments ask for this.
pub fn worked_comments()
    ensures { WorkedComments }
{}

/// These texts behind `run:` are these calls, and these have no reading.
pub fn worked_runs()
    ensures read { WorkedRuns }
    ensures refused { RefusedRuns }
{}
