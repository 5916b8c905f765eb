//! The table and its seats.
ghost use Rattle.std.specs.Prelude.{◌≡◌, ◌+◌, ◌<◌, [], if◌then◌else◌, ◌≤◌, vec_capacity};

use crate::job::Job;
use crate::view::{Cell, View};
use atomic_table::{Seat as Place, Table, TableRule};
use std::alloc::Global;

/// The rule of the table.
pub struct BoardRule;

impl TableRule<Option<Cell>, View, Job> for BoardRule {
    ghost use Rattle.publish_table.specs.Rule.{Shows, first_view};

    ghost holds = { Shows };

    ghost first = { first_view };
}

/// A table of cells, one for each function of a module. Any number of threads may use it, each with its seats.
#[derive(Drop)]
pub struct Board {
    pub(crate) table: Table<Option<Cell>, View, Job, BoardRule, Global>,
    /// How many tickets there are.
    pub(crate) count: usize,
    /// Room for the cells that `close` answers.
    pub(crate) cells: Vec<Cell>,
    ghost room: { (cells.items ≡ []) × (count ≤ vec_capacity cells) },
    ghost sized: { (table.shared.table_id.words ≡ count + 1) × (table.shared.table_id.slots ≡ count)
        × (count < 9223372036854775808) },
}

/// A worker's seat at a table. Contracts see what it has noted (`View`).
#[derive(Drop)]
pub struct Seat {
    pub(crate) place: Place<Option<Cell>, View>,
    /// Whether a draw was answered None: the next one takes no step.
    pub(crate) ended: bool,
    ghost empty: { place.me.1 ≡ [] },
    ghost end_is: { (if ended then 1 else 0) ≡ place.me.0.ends },
}
