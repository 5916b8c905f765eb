//! The laws of the table: functions that do nothing, whose contracts are the laws.
ghost use Rattle.std.specs.Prelude.{◌++◌, List, Option};
ghost use Rattle.atomic_table.specs.Table.{State};
ghost use Rattle.board_core.specs.declared.state.BoardEvent.{BoardEvent};
ghost use Rattle.publish_table.specs.declared.job.Job.{Job};
ghost use Rattle.publish_table.specs.declared.view.Cell.{Cell};
ghost use Rattle.publish_table.specs.declared.view.View.{View};
ghost use Rattle.publish_table.specs.Facts.{IsShown};
ghost use Rattle.publish_table.specs.History.{Leads};
ghost use Rattle.publish_table.specs.Rule.{Shows, ShowsAfter};

/// Wherever the rule of the table holds, and it holds between any two steps of any threads, the words, the cells at
/// home and the views of the seats show the board machine after some events. Each ticket below the count was drawn
/// once, and its owner is the seat that drew it; a cell is filled once, by that seat, with the mark that it has noted;
/// the word of a ticket that a seat has noted as refused is 4, and of one that it has noted as read 2 or 3; a seat was
/// answered None only where the count had reached the number of tickets, and the count never wraps.
pub fn table_facts()
    ensures { (job : Job) (s : State (Option Cell) View) → Shows job s
        → (events : List BoardEvent) × IsShown job s events }
{}

/// The history of a table only grows: where it shows the board after some events, each later state, after steps of any
/// seats, shows it after these events and those of the steps, one event a step or none.
pub fn later_facts()
    ensures { (job : Job) (s later : State (Option Cell) View) (events more : List BoardEvent)
        → ShowsAfter job events s → Leads job s more later
        → ShowsAfter job (events ++ more) later × IsShown job later (events ++ more) }
{}
