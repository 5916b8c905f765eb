//! The steps of a call, each one atomic, and the exchange of the slot that is out.
ghost use Rattle.std.specs.Prelude.{◌≡◌, ◌<◌, ℕ, Option, Some, None, [], ◌∷◌};
ghost use Rattle.publish_table.specs.declared.view.Stage.TheVariants.{Idle};
ghost use Rattle.publish_table.specs.Plays.{with_body, with_refusal, filling, with_read};
ghost use Rattle.publish_table.specs.Seats.{IsOpen, HoldsBody, FillsBody, FillsRefused, IsPlaceOf, IsSamePlace, IsOut};
ghost use Rattle.publish_table.specs.Seats.{HasTried};

use crate::board::BoardRule;
use crate::job::Job;
use crate::plays::{BeginFill, EndRead, FillBody, FillRefused, TryRead};
use crate::view::{Cell, View};
use crate::words::{BODY, FILLING, Found, READING, REFUSED, VACANT};
use atomic_table::{Seat as Place, Shared};

/// The words and the cells, which all seats share.
pub(crate) type Top = Shared<Option<Cell>, View, Job, BoardRule>;

type At = Place<Option<Cell>, View>;

/// The slot of the ticket goes out to the seat.
pub(crate) fn begin_fill(top: &Top, place: &mut At, ticket: usize)
    requires table { IsPlaceOf top.now place.old }
    requires ticket { ticket < top.now.table_id.slots }
    requires ready { (place.old.me.0.stage ≡ Idle) × IsOpen place.old.me.0 ticket × (place.old.me.1 ≡ []) }
    ensures same { IsSamePlace place.old place.new }
    ensures me { place.new.me ≡ (filling place.old.me.0 ticket, (ticket, None) ∷ []) }
{
    top.store::<BeginFill>(place, ticket + 1, FILLING);
}

/// Exchanges the cell that is out.
pub(crate) fn swap(top: &Top, place: &mut At, ticket: usize, cell: Option<Cell>) -> Option<Cell>
    requires table { IsPlaceOf top.now place.old }
    requires out { IsOut place.old.me.1 ticket }
    ensures same { IsSamePlace place.old place.new }
    ensures was { place.old.me.1 ≡ (ticket, result) ∷ [] }
    ensures me { place.new.me ≡ (place.old.me.0, (ticket, cell) ∷ []) }
{
    top.exchange(place, ticket, cell)
}

/// The slot comes home with the finished body.
pub(crate) fn end_fill_body(top: &Top, place: &mut At, ticket: usize)
    requires table { IsPlaceOf top.now place.old }
    requires ticket { ticket < top.now.table_id.slots }
    requires out { FillsBody place.old.me ticket }
    ensures same { IsSamePlace place.old place.new }
    ensures me { place.new.me ≡ (with_body place.old.me.0 ticket, []) }
{
    top.store::<FillBody>(place, ticket + 1, BODY);
}

/// The slot comes home refused.
pub(crate) fn end_fill_refused(top: &Top, place: &mut At, ticket: usize)
    requires table { IsPlaceOf top.now place.old }
    requires ticket { ticket < top.now.table_id.slots }
    requires out { FillsRefused place.old.me ticket }
    ensures same { IsSamePlace place.old place.new }
    ensures me { place.new.me ≡ (with_refusal place.old.me.0 ticket, []) }
{
    top.store::<FillRefused>(place, ticket + 1, REFUSED);
}

/// A try to read: the body goes out to the seat where it is at home.
pub(crate) fn try_read(top: &Top, place: &mut At, ticket: usize) -> Found
    requires table { IsPlaceOf top.now place.old }
    requires ticket { ticket < top.now.table_id.slots }
    requires ready { (place.old.me.0.stage ≡ Idle) × (place.old.me.1 ≡ []) }
    ensures same { IsSamePlace place.old place.new }
    ensures me { HasTried place.old.me ticket result place.new.me }
{
    match top.compare_exchange::<TryRead>(place, ticket + 1, BODY, READING) {
        BODY => Found::Body,
        REFUSED => Found::Refused,
        VACANT => Found::Unfilled(VACANT as u32),
        FILLING => Found::Unfilled(FILLING as u32),
        _ => Found::Reader,
    }
}

/// The slot comes home with the body that went out.
pub(crate) fn end_read(top: &Top, place: &mut At, ticket: usize)
    requires table { IsPlaceOf top.now place.old }
    requires ticket { ticket < top.now.table_id.slots }
    requires out { HoldsBody place.old.me ticket }
    ensures same { IsSamePlace place.old place.new }
    ensures me { place.new.me ≡ (with_read place.old.me.0 ticket, []) }
{
    top.store::<EndRead>(place, ticket + 1, BODY);
}
