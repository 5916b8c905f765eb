//! What no clause says: that a turn is refused where the cell of a callee is, however much memory there is.
ghost use Rattle.std.specs.Prelude.{◌≡◌, ◌<◌, [], IfSome};
ghost use Rattle.inline_finish.specs.Building.{IsLimited};
ghost use Rattle.publish_table.specs.Seats.{AreAllSeats, IsMade, IsSeatOf, view_of};
ghost use Rattle.worker_driver.specs.Plans.{IsPlanOf};
ghost use Rattle.worker_driver.specs.Turns.{IsBoardFor, IsDone, IsDoneBut, IsIdle, IsNoted, IsSameSeat};

use clif_check::check_text;
use clk_flow::NoGate;
use inline_finish::Policy;
use ir_check::Checked;
use publish_table::{Board, Cell, Seat};
use std::alloc::{AllocError, Global};
use std::collections::VecDeque;
use std::marker::Brand;
use std::sync::Wait;
use std::sync::ledger::{Blank, Ledger};
use std::thread::Threads;
use step_counter::Steps;
use worker_driver::{Plan, Turn, turn};

/// A function that calls another one, which has ticket 0.
pub(crate) const TEXT: &str = "function %a(i64) -> i64 fast {
    fn0 = colocated %b(i64) -> i64 fast
block0(v0: i64):
    v1 = call fn0(v0)
    return v1
}

function %b(i64) -> i64 fast {
block0(v0: i64):
    return v0
}
";

/// Sizes that allow the call of the text to be inlined.
pub(crate) fn policy() -> Policy
    ensures { IsLimited result }
{
    Policy {
        callee_size: 64,
        caller_size: 4096,
    }
}

/// What a turn did, and what it left.
#[derive(Drop)]
pub(crate) struct Taken {
    pub turn: Turn,
    pub seat: Seat,
    /// The tickets that are drawn ahead.
    pub ahead: VecDeque<usize>,
}

/// A seat that has done nothing takes a turn.
pub(crate) fn turn_of_idle<R: Wait, L: Ledger>(
    rt: &R,
    alloc: Global,
    module: &Checked,
    plan: &Plan,
    policy: Policy,
    board: &Board,
    seat: Seat,
    blank: Blank,
) -> Taken
    requires board { IsBoardFor «module».now policy board.now × IsIdle board.now seat }
    requires plan { IsPlanOf «module».now plan.now × IsLimited policy }
    requires blank { (blank.name ≡ L.name) × (blank.parts ≡ L.parts) × (0 < blank.parts) }
    ensures seat { IsSeatOf board.now result.seat × IsSameSeat seat result.seat }
    ensures done { IsDoneBut board.now.count (view_of result.seat) result.ahead.items
        × IsNoted «module».now (view_of result.seat) }
{
    let mut seat = seat;
    let mut steps: Steps<L> = Steps::open(blank);
    let mut ahead = VecDeque::new(alloc);
    let turn = turn(
        rt, alloc, module, plan, policy, board, &mut seat, &mut ahead, 1, &NoGate, &mut steps,
    );
    Taken { turn, seat, ahead }
}

/// A seat that has done nothing refuses the ticket that it draws.
fn refuse(module: &Checked, board: &Board, seat: Seat) -> Option<Seat>
    requires { IsIdle board.now seat }
    ensures seat { IfSome result (λ left. IsSeatOf board.now left × IsSameSeat seat left) }
    ensures done { IfSome result
        (λ left. IsDoneBut board.now.count (view_of left) [] × IsNoted «module».now (view_of left)) }
{
    let _ = module;
    let mut seat = seat;
    let ticket = board.draw(&mut seat)?;
    board.publish(&mut seat, ticket, Cell::Refused);
    Some(seat)
}

/// A seat that has filled what it drew finds no ticket. None where it gets one.
fn find_none(module: &Checked, board: &Board, seat: Seat) -> Option<Seat>
    requires seat { IsSeatOf board.now seat }
    requires done { IsDoneBut board.now.count (view_of seat) [] × IsNoted «module».now (view_of seat) }
    ensures seat { IfSome result (λ left. IsSeatOf board.now left × IsSameSeat seat left) }
    ensures done { IfSome result (λ left. IsDone (view_of left) × IsNoted «module».now (view_of left)) }
    ensures ended { IfSome result (λ left. 0 < (view_of left).ends) }
{
    let _ = module;
    let mut seat = seat;
    match board.draw(&mut seat) {
        Some(_) => None,
        None => Some(seat),
    }
}

/// One of two seats refuses a ticket, and the other one then takes a turn. None where a ticket is left behind it.
fn refuse_and_take<R: Wait, L: Ledger>(
    rt: &R,
    alloc: Global,
    module: &Checked,
    plan: &Plan,
    policy: Policy,
    board: &Board,
    seats: Vec<Seat>,
    blank: Blank,
) -> Option<(Turn, Vec<Seat>)>
    requires seats { IsMade «module».now policy 2 board.now seats.items }
    requires plan { IsPlanOf «module».now plan.now × IsLimited policy }
    requires blank { (blank.name ≡ L.name) × (blank.parts ≡ L.parts) × (0 < blank.parts) }
    ensures { IfSome result (λ left. AreAllSeats board.now left.1.items) }
{
    let mut seats = seats;
    let last = seats.pop()?;
    let other = seats.pop()?;
    let other = refuse(module, board, other)?;
    let Taken { turn, seat, ahead } = turn_of_idle::<R, L>(
        rt, alloc, module, plan, policy, board, last, blank,
    );
    if !ahead.is_empty() {
        return None;
    }
    let other = find_none(module, board, other)?;
    let last = find_none(module, board, seat)?;
    let Ok(left) = vec![in alloc; other, last] else {
        return None;
    };
    Some((turn, left))
}

/// The same at a table for the functions of a module, and the cells that are left.
fn turn_after_refusal_by<R: Threads + Wait + Sync, L: Ledger>(
    rt: &R,
    alloc: Global,
    module: &Checked,
    policy: Policy,
    blank: Blank,
) -> Result<Option<(Turn, Vec<Cell>)>, AllocError>
    requires limited { IsLimited policy }
    requires blank { (blank.name ≡ L.name) × (blank.parts ≡ L.parts) × (0 < blank.parts) }
{
    let functions = module.module();
    let plan = Plan::new(rt, alloc, functions, 2)?;
    let (board, seats) = Board::new(alloc, functions, policy, 2)?;
    match refuse_and_take::<R, L>(rt, alloc, module, &plan, policy, &board, seats, blank) {
        Some((turn, seats)) => Ok(Some((turn, board.close(seats)))),
        None => Ok(None),
    }
}

/// The same by a counter that is made here.
fn turn_after_refusal<R: Threads + Wait + Sync>(
    rt: &R,
    alloc: Global,
    module: &Checked,
) -> Result<Option<(Turn, Vec<Cell>)>, AllocError> {
    turn_after_refusal_by::<R, Brand>(rt, alloc, module, policy(), Blank::new(1))
}

#[test]
fn a_refused_callee_refuses_its_caller(rt: HostRuntime) -> Result<(), AllocError> {
    let alloc = rt.alloc();
    let Ok(module) = check_text(&rt, alloc, TEXT.as_bytes(), 1) else {
        panic!(&rt; "refused");
    };
    let Some((turn, cells)) = turn_after_refusal(&rt, alloc, &module)? else {
        panic!(&rt; "a ticket is left");
    };
    assert!(rt; matches!(turn, Turn::Refused(1)));
    assert!(rt; matches!(cells.as_slice(), [Cell::Refused, Cell::Refused]));
    Ok(())
}
