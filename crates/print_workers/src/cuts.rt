//! Where the parts begin whose texts are about as long as each other.
ghost use Rattle.std.specs.Prelude.{◌≤◌, ◌<◌, IfOk, length};
ghost use Rattle.print_workers.specs.Parts.{AreCuts};

use crate::functions::Functions;
use ir_core::Func;
use std::alloc::{AllocError, Global};

/// How many lines a function has that define no value, about.
const OTHER_LINES: usize = 4;

/// A place among the functions, and how many lines the functions before it have, about.
#[derive(Clone, Copy)]
struct Reached {
    func: usize,
    lines: usize,
}

/// The places at which so many parts of the functions begin, each with about as many lines as the others, and the place
/// at which the last part ends. Only `AllocError` refuses.
pub(crate) fn even_cuts<F: Functions>(
    alloc: Global,
    functions: &F,
    parts: usize,
) -> Result<Vec<usize>, AllocError>
    requires { 0 < parts }
    ensures { IfOk result (λ cuts. AreCuts (length (F.functions functions.now)) parts cuts.items) }
{
    let share = all_lines(functions) / parts;
    let mut reached = Reached { func: 0, lines: 0 };
    let mut cuts = Vec::new(alloc);
    cuts.push(0)?;
    for i in 1..parts {
        reached = go_on(functions, reached, share.saturating_mul(i));
        cuts.push(reached.func)?;
    }
    cuts.push(functions.len())?;
    Ok(cuts)
}

/// Goes on from a place until so many lines are before it, or to the end.
fn go_on<F: Functions>(functions: &F, from: Reached, lines: usize) -> Reached
    requires { from.func ≤ length (F.functions functions.now) }
    ensures later { from.func ≤ result.func }
    ensures within { result.func ≤ length (F.functions functions.now) }
{
    let mut reached = from;
    'functions: while reached.func < functions.len() && reached.lines < lines {
        reached = Reached {
            func: reached.func + 1,
            lines: reached
                .lines
                .saturating_add(guess_lines(functions.func(reached.func))),
        };
    }
    reached
}

/// How many lines the functions have, about.
fn all_lines<F: Functions>(functions: &F) -> usize {
    let mut lines = 0usize;
    for i in 0..functions.len() {
        lines = lines.saturating_add(guess_lines(functions.func(i)));
    }
    lines
}

/// How many lines a function has, about: most lines define a value.
fn guess_lines(func: &Func) -> usize {
    func.values().saturating_add(OTHER_LINES)
}
