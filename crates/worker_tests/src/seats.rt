//! What no clause says: that a table is made with ample memory, that its first draw gets ticket 0 and the next one
//! ticket 1, and that a body gets from one thread to another.
ghost use Rattle.std.specs.Prelude.{◌≡◌, ◌<◌, ◌≤◌, All, IfOk, length};
ghost use Rattle.inline_finish.specs.Building.{IsLimited};
ghost use Rattle.worker_driver.specs.Plans.{IsPlanOf};
ghost use Rattle.worker_driver.specs.Turns.{IsBoardFor, IsIdle};

use crate::turns::{TEXT, policy, turn_of_idle};
use clif_check::check_text;
use clk_flow::NoGate;
use inline_finish::Policy;
use ir_check::Checked;
use ir_core::Module;
use publish_table::{Board, Cell, Seat};
use std::alloc::{AllocError, Global};
use std::marker::Brand;
use std::sync::Wait;
use std::sync::ledger::{Blank, Ledger};
use std::thread;
use std::thread::Threads;
use step_counter::Steps;
use worker_driver::{Plan, Turn, drive};

/// A table for the functions of a module, with so many seats.
fn table(
    alloc: Global,
    module: &Module,
    policy: Policy,
    seats: usize,
) -> Result<(Board, Vec<Seat>), AllocError>
    requires { (1 ≤ seats) × (seats ≤ 64) }
    ensures { IfOk result (λ made. IsBoardFor «module».now policy made.0 × All (IsIdle made.0) made.1.items) }
{
    Board::new(alloc, module, policy, seats)
}

#[test]
fn makes_seats(rt: HostRuntime) -> Result<(), AllocError> {
    let alloc = rt.alloc();
    let (_board, seats) = table(alloc, &Module::new(alloc), policy(), 3)?;
    assert_eq!(rt; seats.len(), 3);
    Ok(())
}

/// Four draws of a seat that has done nothing.
fn four_draws(board: &Board, seat: Seat) -> [Option<usize>; 4]
    requires { IsIdle board.now seat }
{
    let mut seat = seat;
    let first = board.draw(&mut seat);
    let second = board.draw(&mut seat);
    let third = board.draw(&mut seat);
    let fourth = board.draw(&mut seat);
    [first, second, third, fourth]
}

/// Four draws of the only seat at a table for the functions of a module.
fn draws_alone(alloc: Global, module: &Module) -> Result<Option<[Option<usize>; 4]>, AllocError> {
    let (board, seats) = table(alloc, module, policy(), 1)?;
    let mut seats = seats;
    match seats.pop() {
        Some(seat) => Ok(Some(four_draws(&board, seat))),
        None => Ok(None),
    }
}

#[test]
fn a_seat_draws_all_tickets_and_then_none(rt: HostRuntime) -> Result<(), AllocError> {
    let alloc = rt.alloc();
    let Ok(module) = check_text(&rt, alloc, TEXT.as_bytes(), 1) else {
        panic!(&rt; "refused");
    };
    let draws = draws_alone(alloc, module.module())?;
    assert!(rt; draws == Some([Some(0), Some(1), None, None]));
    Ok(())
}

/// Whether a seat that has done nothing reads a body under ticket 0.
fn reads_a_body<R: Wait>(rt: &R, board: &Board, seat: Seat) -> bool
    requires seat { IsIdle board.now seat }
    requires some { 0 < board.now.count }
{
    let mut seat = seat;
    matches!(board.read(rt, &mut seat, 0), Ok(Cell::Body(_)))
}

/// A seat that has done nothing takes a turn, by a counter that is made here.
fn turn_alone<R: Wait>(
    rt: &R,
    alloc: Global,
    module: &Checked,
    plan: &Plan,
    policy: Policy,
    board: &Board,
    seat: Seat,
) -> Turn
    requires board { IsBoardFor «module».now policy board.now × IsIdle board.now seat }
    requires plan { IsPlanOf «module».now plan.now × IsLimited policy }
{
    turn_of_idle::<R, Brand>(rt, alloc, module, plan, policy, board, seat, Blank::new(1)).turn
}

/// One seat takes a turn in one thread, and the other one reads under ticket 0 in another. Whether it read a body.
fn read_beside_turn<R: Threads + Wait + Sync>(
    rt: &R,
    alloc: Global,
    module: &Checked,
    plan: &Plan,
    policy: Policy,
    board: &Board,
    turning: Seat,
    reading: Seat,
) -> bool
    requires board { IsBoardFor «module».now policy board.now }
    requires seats { IsIdle board.now turning × IsIdle board.now reading }
    requires plan { IsPlanOf «module».now plan.now × IsLimited policy }
    requires some { 0 < length «module».now }
{
    let (_turn, read) = thread::join(
        rt,
        move || -> Turn
            requires board { IsBoardFor «module».now policy board.now × IsIdle board.now turning }
            requires plan { IsPlanOf «module».now plan.now × IsLimited policy }
        { turn_alone(rt, alloc, module, plan, policy, board, turning) },
        move || -> bool
            requires seat { IsIdle board.now reading }
            requires some { 0 < board.now.count }
        { reads_a_body(rt, board, reading) },
    );
    read
}

/// The same by the last two of the seats. None where there are no two, or the module has no function.
fn read_by_two<R: Threads + Wait + Sync>(
    rt: &R,
    alloc: Global,
    module: &Checked,
    plan: &Plan,
    policy: Policy,
    board: &Board,
    seats: Vec<Seat>,
) -> Option<bool>
    requires board { IsBoardFor «module».now policy board.now × All (IsIdle board.now) seats.items }
    requires plan { IsPlanOf «module».now plan.now × IsLimited policy }
{
    let mut seats = seats;
    let turning = seats.pop()?;
    let reading = seats.pop()?;
    if module.module().len() == 0 {
        return None;
    }
    Some(read_beside_turn(rt, alloc, module, plan, policy, board, turning, reading))
}

/// The same at a table for the functions of a module.
fn read_at_table<R: Threads + Wait + Sync>(
    rt: &R,
    alloc: Global,
    module: &Checked,
    policy: Policy,
) -> Result<Option<bool>, AllocError>
    requires { IsLimited policy }
{
    let functions = module.module();
    let plan = Plan::new(rt, alloc, functions, 2)?;
    let (board, seats) = table(alloc, functions, policy, 2)?;
    Ok(read_by_two(rt, alloc, module, &plan, policy, &board, seats))
}

#[test]
fn a_thread_reads_what_another_one_publishes(rt: HostRuntime) -> Result<(), AllocError> {
    let alloc = rt.alloc();
    let Ok(module) = check_text(&rt, alloc, TEXT.as_bytes(), 1) else {
        panic!(&rt; "refused");
    };
    assert!(rt; read_at_table(&rt, alloc, &module, policy())? == Some(true));
    Ok(())
}

/// The cells that two workers leave, who take all turns.
fn driven_by<R: Threads + Wait + Sync, L: Ledger>(
    rt: &R,
    alloc: Global,
    module: &Checked,
    policy: Policy,
    blank: Blank,
) -> Result<Vec<Cell>, AllocError>
    requires limited { IsLimited policy }
    requires blank { (blank.name ≡ L.name) × (blank.parts ≡ L.parts) × (0 < blank.parts) }
{
    let functions = module.module();
    let plan = Plan::new(rt, alloc, functions, 2)?;
    let (board, seats) = Board::new(alloc, functions, policy, 2)?;
    let mut steps: Steps<L> = Steps::open(blank);
    let seats = drive(
        rt, alloc, module, &plan, policy, &board, seats, &NoGate, &mut steps,
    )?;
    Ok(board.close(seats))
}

/// The same by a counter that is made here.
fn driven<R: Threads + Wait + Sync>(
    rt: &R,
    alloc: Global,
    module: &Checked,
) -> Result<Vec<Cell>, AllocError> {
    driven_by::<R, Brand>(rt, alloc, module, policy(), Blank::new(1))
}

#[test]
fn two_workers_fill_all_cells(rt: HostRuntime) -> Result<(), AllocError> {
    let alloc = rt.alloc();
    let Ok(module) = check_text(&rt, alloc, TEXT.as_bytes(), 1) else {
        panic!(&rt; "refused");
    };
    let cells = driven(&rt, alloc, &module)?;
    assert!(rt; matches!(cells.as_slice(), [Cell::Body(_), Cell::Body(_)]));
    Ok(())
}
