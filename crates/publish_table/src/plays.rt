//! The steps on the table, and what each tells the seat that takes it.
ghost use Rattle.publish_table.specs.Plays.{drew, began_fill, filled_body, filled_refused, tried, gave_back, with_seat};
ghost use Rattle.publish_table.specs.Plays.{new_seat, joined, spent};

use crate::view::{Cell, View};
use atomic_table::{Join, Play, Split};

/// The count of tickets goes up by one.
pub(crate) struct DrawTicket;

impl Play<Option<Cell>, View> for DrawTicket {
    ghost then = { drew };
}

/// A cell goes out to the seat that drew its ticket, to be filled.
pub(crate) struct BeginFill;

impl Play<Option<Cell>, View> for BeginFill {
    ghost then = { began_fill };
}

/// It comes home with a body.
pub(crate) struct FillBody;

impl Play<Option<Cell>, View> for FillBody {
    ghost then = { filled_body };
}

/// It comes home refused.
pub(crate) struct FillRefused;

impl Play<Option<Cell>, View> for FillRefused {
    ghost then = { filled_refused };
}

/// A cell with a body goes out to a seat that reads it, if it is at home.
pub(crate) struct TryRead;

impl Play<Option<Cell>, View> for TryRead {
    ghost then = { tried };
}

/// It comes home again.
pub(crate) struct EndRead;

impl Play<Option<Cell>, View> for EndRead {
    ghost then = { gave_back };
}

/// The first seat makes another.
pub(crate) struct MakeSeat;

impl Split<View> for MakeSeat {
    ghost left = { with_seat };

    ghost right = { new_seat };
}

/// The first seat takes another in.
pub(crate) struct TakeIn;

impl Join<View> for TakeIn {
    ghost both = { joined };

    ghost spent = { spent };
}
