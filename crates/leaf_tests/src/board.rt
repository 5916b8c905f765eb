//! A run of events whose answers were worked out by hand: over the definitions, and over `step`.
ghost use Rattle.std.specs.Prelude.{◌≡◌, [], ◌∷◌, true, false};
ghost use Rattle.board_core.specs.Machine.{start, answers};
ghost use Rattle.board_core.specs.declared.state.Mark.TheVariants.{Body, Refused};
ghost use Rattle.board_core.specs.declared.state.BoardEvent.TheVariants.{Draw, BeginFill, EndFill, BeginRead, EndRead};

use board_core::{BoardEvent, BoardState, Mark, Phase, laws, step};
use std::alloc::AllocError;

fn worked_run()
    ensures { answers (start 2) (Draw 0 ∷ Draw 1 ∷ BeginFill 1 0 ∷ BeginFill 0 0 ∷ EndFill 1 0 Body ∷ BeginRead 1 0
        ∷ EndFill 0 0 Body ∷ BeginRead 1 0 ∷ BeginRead 0 0 ∷ EndRead 0 0 ∷ EndRead 1 0 ∷ Draw 0 ∷ BeginFill 0 2
        ∷ BeginFill 1 1 ∷ EndFill 1 1 Refused ∷ BeginRead 0 1 ∷ [])
        ≡ true ∷ true ∷ false ∷ true ∷ false ∷ false ∷ true ∷ true ∷ false ∷ false ∷ true ∷ true ∷ false ∷ true ∷ true
        ∷ false ∷ [] }
{}

/// The events, each with its answer.
static EVENTS: [(BoardEvent, bool); 16] = [
    (BoardEvent::Draw(0), true),
    (BoardEvent::Draw(1), true),
    (BoardEvent::BeginFill(1, 0), false),
    (BoardEvent::BeginFill(0, 0), true),
    (BoardEvent::EndFill(1, 0, Mark::Body), false),
    (BoardEvent::BeginRead(1, 0), false),
    (BoardEvent::EndFill(0, 0, Mark::Body), true),
    (BoardEvent::BeginRead(1, 0), true),
    (BoardEvent::BeginRead(0, 0), false),
    (BoardEvent::EndRead(0, 0), false),
    (BoardEvent::EndRead(1, 0), true),
    (BoardEvent::Draw(0), true),
    (BoardEvent::BeginFill(0, 2), false),
    (BoardEvent::BeginFill(1, 1), true),
    (BoardEvent::EndFill(1, 1, Mark::Refused), true),
    (BoardEvent::BeginRead(0, 1), false),
];

/// The first event with another answer.
fn first_wrong(board: &mut BoardState) -> Option<BoardEvent> {
    for (event, answer) in EVENTS.iter() {
        if step(board, *event) != *answer {
            return Some(*event);
        }
    }
    None
}

/// Whether the board is as the events leave it: with two tickets and two full cells, and another ticket drawn.
fn is_left(board: &BoardState) -> bool {
    let owners = board.owners();
    board.next() == 3
        && owners.get(1) == Some(&Some(1))
        && owners.get(2) == None
        && owners == [Some(0), Some(1)].as_slice()
        && board.phases() == [Phase::Full(Mark::Body), Phase::Full(Mark::Refused)].as_slice()
}

#[test]
fn events_have_their_answers(rt: HostRuntime) -> Result<(), AllocError> {
    worked_run();
    laws::board_facts();
    let mut board = BoardState::new(rt.alloc(), 2)?;
    let wrong = first_wrong(&mut board);
    assert!(rt; wrong.is_none(), "at {wrong:?}");
    assert!(rt; is_left(&board));
    Ok(())
}
