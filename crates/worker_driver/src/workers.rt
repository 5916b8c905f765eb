//! The workers run.
ghost use Rattle.std.specs.Prelude.{◌≡◌, ◌<◌, ◌≤◌, ◌+◌, ℕ, length, IfSome, IfOk, Some, All, slice_index_or, vec_len};
ghost use Rattle.std.specs.Prelude.{map, List, [], ◌∷◌, ◌++◌};
ghost use Rattle.inline_finish.specs.Building.{IsLimited};
ghost use Rattle.publish_table.specs.declared.board.Seat.{Seat};
ghost use Rattle.publish_table.specs.Seats.{IsSeatOf, view_of};
ghost use Rattle.worker_driver.specs.declared.outcome.Desk.{Desk};
ghost use Rattle.worker_driver.specs.Plans.{IsPlanOf};
ghost use Rattle.worker_driver.specs.Turns.{IsBoardFor, IsDone, IsNoted, IsSameSeat, IsThrough, IsReady, IsIdle};
ghost use Rattle.worker_driver.specs.Turns.{IsThroughAs, Worked, CountsWell, IsOnce, cost_of, desk_of, seat_at};
ghost use Rattle.worker_driver.specs.Turns.{cost_in, RoseBy};

use crate::drawing::{make_room_for_run, many_ahead, none_ahead};
use crate::outcome::{Desk, Turn};
use crate::plan::Plan;
use crate::taking::turn;
use clk_flow::Gate;
use inline_finish::Policy;
use ir_check::Checked;
use publish_table::{Board, Seat};
use std::alloc::{AllocError, Global};
use std::marker::Brand;
use std::sync::Wait;
use std::sync::ledger::{Blank, Ledger};
use std::thread;
use std::thread::Threads;
use step_counter::Steps;

/// Takes turns until there is no ticket. The answer is what the bodies cost that were published. The worker's counter,
/// which its turns have, rises by just that, and by more only where a turn was refused: what that one built is counted.
fn work<R: Wait, G: Gate, L: Ledger>(
    rt: &R,
    alloc: Global,
    module: &Checked,
    plan: &Plan,
    policy: Policy,
    board: &Board,
    seat: &mut Seat,
    worker: usize,
    many: usize,
    gate: &G,
    steps: &mut Steps<L>,
) -> u128
    requires board { IsBoardFor «module».now policy board.now × IsSeatOf board.now seat.old }
    requires plan { IsPlanOf «module».now plan.now × IsLimited policy }
    requires done { IsDone (view_of seat.old) × IsNoted «module».now (view_of seat.old) }
    requires once { IsOnce «module».now (view_of seat.old) }
    ensures seat { IsThrough «module».now board.now seat.new × IsSameSeat seat.old seat.new }
    ensures count { cost_of policy «module».now (view_of seat.new).bodies
        ≡ cost_of policy «module».now (view_of seat.old).bodies + result }
    ensures steps { RoseBy (view_of seat.new) result steps.old steps.new }
{
    let mut count = 0u128;
    let mut ahead = none_ahead(alloc, many);
    for _ in rt.forever() {
        make_room_for_run(alloc, &ahead);
        match turn(
            rt, alloc, module, plan, policy, board, seat, &mut ahead, worker, gate, steps,
        ) {
            Turn::Ended => return count,
            Turn::Filled(_, inlined) => {
                count += 1 + inlined as u128;
            }
            Turn::Refused(_) => {}
        }
    }
    unreachable!()
}

/// A worker at its desk, with a counter of its own, which all its turns have. The desk's count is how far they tell
/// that it rose.
fn work_counted<R: Wait, G: Gate, L: Ledger>(
    rt: &R,
    alloc: Global,
    module: &Checked,
    plan: &Plan,
    policy: Policy,
    board: &Board,
    desk: &mut Desk,
    worker: usize,
    many: usize,
    gate: &G,
    blank: Blank,
)
    requires blank { (blank.name ≡ L.name) × (blank.parts ≡ L.parts) × (0 < blank.parts) }
    requires board { IsBoardFor «module».now policy board.now × IsReady board.now desk.old }
    requires plan { IsPlanOf «module».now plan.now × IsLimited policy }
    ensures { Worked policy «module».now board.now desk.old desk.new }
{
    let mut steps: Steps<L> = Steps::open(blank);
    desk.count = work(
        rt,
        alloc,
        module,
        plan,
        policy,
        board,
        &mut desk.seat,
        worker,
        many,
        gate,
        &mut steps,
    );
}

fn work_at<R: Wait, G: Gate>(
    rt: &R,
    alloc: Global,
    module: &Checked,
    plan: &Plan,
    policy: Policy,
    board: &Board,
    desk: &mut Desk,
    worker: usize,
    many: usize,
    gate: &G,
)
    requires board { IsBoardFor «module».now policy board.now × IsReady board.now desk.old }
    requires plan { IsPlanOf «module».now plan.now × IsLimited policy }
    ensures { Worked policy «module».now board.now desk.old desk.new }
{
    work_counted::<R, G, Brand>(
        rt,
        alloc,
        module,
        plan,
        policy,
        board,
        desk,
        worker,
        many,
        gate,
        Blank::new(1),
    );
}

/// All workers, one at each desk.
fn run_desks<R: Threads + Wait + Sync, G: Gate>(
    rt: &R,
    alloc: Global,
    module: &Checked,
    plan: &Plan,
    policy: Policy,
    board: &Board,
    desks: &mut [Desk],
    gate: &G,
)
    requires board { IsBoardFor «module».now policy board.now }
    requires plan { IsPlanOf «module».now plan.now × IsLimited policy }
    requires desks { (0 < length desks.old) × All (IsReady board.now) desks.old }
    ensures { (i : ℕ) (d : Desk) → i < length desks.old → Worked policy «module».now board.now
        (slice_index_or desks.old i d) (slice_index_or desks.new i d) }
{
    let workers = desks.len();
    let many = many_ahead(module.module().len(), workers);
    thread::for_each_mut(
        rt,
        desks,
        workers,
        &|worker: usize, desk: &mut Desk| -> ()
            requires board { IsBoardFor «module».now policy board.now × IsReady board.now desk.old }
            requires plan { IsPlanOf «module».now plan.now × IsLimited policy }
            ensures { Worked policy «module».entry.now board.entry.now desk.old desk.new }
        {
            work_at(
                rt, alloc, module, plan, policy, board, desk, worker, many, gate,
            )
        },
    );
}

/// A desk for each seat.
fn desks_for(alloc: Global, seats: Vec<Seat>) -> Result<Vec<Desk>, AllocError>
    ensures { IfOk result (λ v. v.items ≡ map desk_of seats.items) }
{
    let mut desks = Vec::with_capacity(alloc, seats.len())?;
    for seat in seats {
        desks.push(Desk { seat, count: 0 })?;
    }
    Ok(desks)
}

/// Counts so many steps.
fn add_many<L: Ledger>(steps: &mut Steps<L>, amount: u128)
    ensures { steps.new ≡ steps.old + amount }
{
    let mut left = amount;
    while left > u64::MAX as u128 {
        steps.add(u64::MAX);
        left -= u64::MAX as u128;
    }
    steps.add(left as u64);
}

/// The seats of the desks, and the counts are added to the counter.
fn seats_of<L: Ledger>(
    alloc: Global,
    desks: Vec<Desk>,
    module: &Checked,
    policy: Policy,
    steps: &mut Steps<L>,
) -> Result<Vec<Seat>, AllocError>
    requires { All (CountsWell policy «module».now) desks.items }
    ensures seats { IfOk result (λ v. v.items ≡ map seat_at desks.items) }
    ensures steps { IfOk result (λ v. steps.new ≡ steps.old + cost_in policy «module».now v.items) }
{
    let _ = module;
    let _ = policy;
    let mut seats = Vec::with_capacity(alloc, desks.len())?;
    for desk in desks {
        let Desk { seat, count } = desk;
        add_many(steps, count);
        seats.push(seat)?;
    }
    Ok(seats)
}

/// All turns of all workers, one at each seat and each with a counter of its own. The seats come back in their order,
/// and each of them was answered None and has filled what it drew. What the workers' counters counted for the bodies
/// that they published is added to the counter.
pub fn drive<R: Threads + Wait + Sync, G: Gate, L: Ledger>(
    rt: &R,
    alloc: Global,
    module: &Checked,
    plan: &Plan,
    policy: Policy,
    board: &Board,
    seats: Vec<Seat>,
    gate: &G,
    steps: &mut Steps<L>,
) -> Result<Vec<Seat>, AllocError>
    requires board { IsBoardFor «module».now policy board.now }
    requires plan { IsPlanOf «module».now plan.now × IsLimited policy }
    requires seats { (0 < vec_len seats) × All (IsIdle board.now) seats.items }
    ensures len { IfOk result (λ v. vec_len v ≡ vec_len seats) }
    ensures each { IfOk result (λ v. (i : ℕ) (d : Seat) → i < vec_len seats
        → IsThroughAs «module».now board.now (slice_index_or seats.items i d) (slice_index_or v.items i d)) }
    ensures steps { IfOk result (λ v. steps.new ≡ steps.old + cost_in policy «module».now v.items) }
{
    let mut desks = desks_for(alloc, seats)?;
    run_desks(
        rt,
        alloc,
        module,
        plan,
        policy,
        board,
        desks.as_mut_slice(),
        gate,
    );
    seats_of(alloc, desks, module, policy, steps)
}
