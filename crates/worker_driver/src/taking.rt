//! A worker's turn.
ghost use Rattle.std.specs.Prelude.{◌≡◌, ◌<◌, ◌≤◌, ◌+◌, ℕ, length, true, IfSome, Some, slice_get};
ghost use Rattle.std.specs.Arc.{arc_value};
ghost use Rattle.call_graph.specs.Numbers.{called};
ghost use Rattle.inline_finish.specs.Bodies.{IsBodyOf, HasCallees};
ghost use Rattle.inline_finish.specs.Building.{policy_of, IsLimited, IsBuilt};
ghost use Rattle.publish_table.specs.Jobs.{FinishedOf};
ghost use Rattle.publish_table.specs.Seats.{IsSeatOf, StaysSeat, view_of};
ghost use Rattle.worker_driver.specs.Plans.{IsPlanOf};
ghost use Rattle.worker_driver.specs.Reading.{IsFor, ReadSoFar, CalleesRead, OnlyRead, IsReadUnder, IsReadIfApart};
ghost use Rattle.worker_driver.specs.Turns.{IsBoardFor, IsDoneBut, IsNoted, IsSameSeat, IsOnce, Tells, TakesFirst};
ghost use Rattle.worker_driver.specs.Turns.{inlined_at};

use crate::callees::Callees;
use crate::drawing::next_ticket;
use crate::outcome::Turn;
use crate::plan::Plan;
use clk_flow::Gate;
use inline_finish::{Built, Policy, finish_body};
use ir_check::Checked;
use ir_core::Module;
use publish_table::{Board, Cell, Seat};
use std::alloc::Global;
use std::collections::VecDeque;
use std::sync::ledger::Ledger;
use std::sync::{Arc, Wait};
use step_counter::Steps;

/// Reads the body of a function under its ticket. Whether it is there now.
fn read_callee<R: Wait>(
    rt: &R,
    plan: &Plan,
    board: &Board,
    seat: &mut Seat,
    callees: &mut Callees,
    callee: usize,
) -> bool
    requires board { IsBoardFor callees.old.functions callees.old.policy board.now × IsSeatOf board.now seat.old }
    requires plan { IsPlanOf callees.old.functions plan.now }
    requires callee { callee < length callees.old.functions }
    ensures seat { StaysSeat board.now seat.old seat.new }
    ensures view { OnlyRead (view_of seat.old) (view_of seat.new) }
    ensures kind { result ≡ true → IsFor callees.old.functions callees.old.policy callees.new }
    ensures read { result ≡ true → IsReadUnder plan.now callees.old callees.new callee (view_of seat.new) }
{
    let ticket = plan.tickets[callee];
    match board.read(rt, seat, ticket) {
        Ok(Cell::Body(built)) => callees.put(callee, built).is_ok(),
        Ok(Cell::Refused) => false,
        Err(_) => false,
    }
}

/// Reads the body of a function that another one calls, under its ticket, if they are in different pieces. Whether it
/// is there now, or need not be.
fn read_apart<R: Wait>(
    rt: &R,
    plan: &Plan,
    board: &Board,
    seat: &mut Seat,
    callees: &mut Callees,
    func: usize,
    callee: usize,
) -> bool
    requires board { IsBoardFor callees.old.functions callees.old.policy board.now × IsSeatOf board.now seat.old }
    requires plan { IsPlanOf callees.old.functions plan.now }
    requires func { func < length callees.old.functions }
    requires callee { callee < length callees.old.functions }
    ensures seat { StaysSeat board.now seat.old seat.new }
    ensures view { OnlyRead (view_of seat.old) (view_of seat.new) }
    ensures kind { result ≡ true → IsFor callees.old.functions callees.old.policy callees.new }
    ensures read { result ≡ true → IsReadIfApart plan.now func callees.old callees.new callee (view_of seat.new) }
{
    let pieces = plan.order.piece.as_slice();
    if pieces[callee] == pieces[func] {
        return true;
    }
    read_callee(rt, plan, board, seat, callees, callee)
}

/// Reads the bodies of the functions in other pieces that a function calls. None where memory fails or one is refused.
fn read_callees<R: Wait>(
    rt: &R,
    alloc: Global,
    module: &Module,
    plan: &Plan,
    policy: Policy,
    board: &Board,
    seat: &mut Seat,
    func: usize,
) -> Option<Callees>
    requires board { IsBoardFor «module».now policy board.now × IsSeatOf board.now seat.old }
    requires plan { IsPlanOf «module».now plan.now }
    requires func { func < length «module».now }
    ensures seat { StaysSeat board.now seat.old seat.new }
    ensures view { OnlyRead (view_of seat.old) (view_of seat.new) }
    ensures kind { IfSome result (λ callees. IsFor «module».now policy callees) }
    ensures read { IfSome result
        (λ callees. ReadSoFar plan.now func (length (called plan.now.graph func)) callees (view_of seat.new)) }
{
    let mut callees = Callees::new(alloc, module, policy);
    let calls = plan.graph.calls(func);
    for callee in calls {
        if !read_apart(rt, plan, board, seat, &mut callees, func, *callee) {
            return None;
        }
    }
    Some(callees)
}

/// The finished body of a function, by the bodies that were read for it, where several may share it; and how many sites
/// were inlined into it. None where memory fails.
fn finish<L: Ledger>(
    alloc: Global,
    module: &Checked,
    plan: &Plan,
    policy: Policy,
    func: usize,
    callees: &Callees,
    steps: &mut Steps<L>,
) -> Option<(Arc<Built>, u64)>
    requires plan { IsPlanOf «module».now plan.now × IsLimited policy }
    requires func { func < length «module».now }
    requires kind { IsFor «module».now policy callees.now }
    requires has { IfSome (slice_get «module».now func) (λ f. HasCallees «module».now f callees.now.known) }
    ensures built { IfSome result (λ r. IfSome (slice_get «module».now func)
        (λ f. IsBuilt (policy_of policy) «module».now f (arc_value r.0))) }
    ensures inlined { IfSome result (λ r. r.1 ≡ (arc_value r.0).inlined) }
    ensures steps { IfSome result (λ r. steps.new ≡ steps.old + (1 + r.1)) }
    ensures counted { steps.old ≤ steps.new }
{
    let built = finish_body(alloc, module, &plan.order, func, callees, policy, steps).ok()?;
    let inlined = built.inlined;
    let body = Arc::new(alloc, built).ok()?;
    Some((body, inlined))
}

/// The finished body of a ticket's function, and how many sites were inlined into it. None where memory fails or the
/// body of a callee is refused.
fn build<R: Wait, L: Ledger>(
    rt: &R,
    alloc: Global,
    module: &Checked,
    plan: &Plan,
    policy: Policy,
    board: &Board,
    seat: &mut Seat,
    ticket: usize,
    steps: &mut Steps<L>,
) -> Option<(Arc<Built>, u64)>
    requires board { IsBoardFor «module».now policy board.now × IsSeatOf board.now seat.old }
    requires plan { IsPlanOf «module».now plan.now × IsLimited policy }
    requires ticket { ticket < length «module».now }
    ensures seat { StaysSeat board.now seat.old seat.new }
    ensures view { OnlyRead (view_of seat.old) (view_of seat.new) }
    ensures body { IfSome result (λ r. FinishedOf policy «module».now ticket (arc_value r.0)) }
    ensures inlined { IfSome result (λ r. r.1 ≡ inlined_at policy «module».now ticket) }
    ensures noted { IfSome result (λ r. CalleesRead «module».now (view_of seat.new) ticket) }
    ensures steps { IfSome result (λ r. steps.new ≡ steps.old + (1 + r.1)) }
    ensures counted { steps.old ≤ steps.new }
{
    let func = plan.order.list.as_slice()[ticket];
    let callees = read_callees(rt, alloc, module.module(), plan, policy, board, seat, func)?;
    finish(alloc, module, plan, policy, func, &callees, steps)
}

/// One turn of a worker. It takes the first ticket that it drew ahead; where there is none it draws one, and then as
/// many ahead as there is room for. It announces the ticket at the gate, and publishes the finished body of its
/// function, by the bodies of callees in other pieces as they are read under their tickets. While the gate holds the
/// ticket nobody else gets those ahead. `Ended` comes where no ticket was left. `Refused` comes where memory failed or
/// such a body is refused; so is then the ticket.
pub fn turn<R: Wait, G: Gate, L: Ledger>(
    rt: &R,
    alloc: Global,
    module: &Checked,
    plan: &Plan,
    policy: Policy,
    board: &Board,
    seat: &mut Seat,
    ahead: &mut VecDeque<usize>,
    worker: usize,
    gate: &G,
    steps: &mut Steps<L>,
) -> Turn
    requires board { IsBoardFor «module».now policy board.now × IsSeatOf board.now seat.old }
    requires plan { IsPlanOf «module».now plan.now × IsLimited policy }
    requires done { IsDoneBut board.now.count (view_of seat.old) ahead.old.items
        × IsNoted «module».now (view_of seat.old) }
    ensures seat { IsSeatOf board.now seat.new × IsSameSeat seat.old seat.new }
    ensures done { IsDoneBut board.now.count (view_of seat.new) ahead.new.items
        × IsNoted «module».now (view_of seat.new) }
    ensures once { IsOnce «module».now (view_of seat.old) → IsOnce «module».now (view_of seat.new) }
    ensures tells { Tells policy «module».now result (view_of seat.old) (view_of seat.new) steps.old steps.new }
    ensures order { TakesFirst result (view_of seat.new).drawn ahead.new.items }
{
    let Some(ticket) = next_ticket(board, seat, ahead) else {
        return Turn::Ended;
    };
    gate.started(worker, ticket);
    if let Some((body, inlined)) = build(
        rt, alloc, module, plan, policy, board, seat, ticket, steps,
    ) {
        board.publish(seat, ticket, Cell::Body(body));
        return Turn::Filled(ticket, inlined);
    }
    board.publish(seat, ticket, Cell::Refused);
    Turn::Refused(ticket)
}
