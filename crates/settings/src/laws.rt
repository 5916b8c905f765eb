//! Laws of the command table: functions without a body, each of which has its law as its contract.
ghost use Rattle.settings.specs.Laws.{SomeAreRefused, SomeHaveSettings, TableIsSimple};

/// Help, unknown and repeated words, and numbers out of their ranges have no settings.
pub fn some_are_refused()
    ensures { SomeAreRefused }
{}

/// Command lines with all that is needed have settings, the usual ones where they say nothing.
pub fn some_have_settings()
    ensures { SomeHaveSettings }
{}

/// The table is of the kind that `clap`'s clauses speak of.
pub fn table_is_simple()
    ensures { TableIsSimple }
{}
