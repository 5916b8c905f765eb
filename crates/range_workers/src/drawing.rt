//! Calls that are made by workers, each of which draws the number of its next call when it is done with one.
ghost use Rattle.std.specs.Prelude.{◌≡◌, ℕ, ◌<◌, All, None, Some, IfOk, map, replicate, vec_len};
ghost use Rattle.std.specs.Fork.{GivesEach};
ghost use Rattle.range_workers.specs.Drawn.{IsGiven};

use std::alloc::{AllocError, Global};
use std::sync::atomic::{AtomicUsize, Ordering};
use std::thread::{Threads, map_indices};

/// How many parts work is cut into for each worker: a worker on a slow processor then does fewer than the others.
pub const PARTS_OF_A_WORKER: usize = 8;

/// A number that was drawn, and what was given there.
#[derive(Drop)]
struct Drawn<X> {
    number: usize,
    given: X,
}

/// Calls `f` at each number below `count`, in at most so many threads, each of which draws the next number when it is
/// done with one, and gives the results in order. `Err` where memory runs out. It would come too where a number was not
/// drawn, which no clause excludes: each below the count is drawn by one of the threads before the first of them ends.
pub fn map_drawn<R: Threads + Sync, X: Send + Drop, F: Fn(usize) -> X + Sync>(
    rt: &R,
    alloc: Global,
    count: usize,
    workers: usize,
    f: &F,
) -> Result<Vec<X>, AllocError>
    requires { (i : ℕ) → i < count → F.pre f.now i }
    ensures len { IfOk result (λ v. vec_len v ≡ count) }
    ensures each { IfOk result (λ v. GivesEach F.Fn f.now count v.items) }
{
    if workers <= 1 || count <= 1 {
        return map_in_turn(alloc, count, f);
    }
    let answers = draw_by_workers(rt, alloc, count, workers.min(count), f)?;
    let mut places = make_places(alloc, count)?;
    for answer in answers {
        for drawn in answer? {
            places[drawn.number] = Some(drawn.given);
        }
    }
    take_all(alloc, places)
}

/// Calls `f` at each number below `count`, one after the other. Only `AllocError` refuses.
fn map_in_turn<X: Drop, F: Fn(usize) -> X>(
    alloc: Global,
    count: usize,
    f: &F,
) -> Result<Vec<X>, AllocError>
    requires { (i : ℕ) → i < count → F.pre f.now i }
    ensures len { IfOk result (λ v. vec_len v ≡ count) }
    ensures each { IfOk result (λ v. GivesEach F.Fn f.now count v.items) }
{
    let mut all = Vec::with_capacity(alloc, count)?;
    for i in 0..count {
        all.push(f(i))?;
    }
    Ok(all)
}

/// What each of so many workers drew, if there was memory for it.
fn draw_by_workers<R: Threads + Sync, X: Send + Drop, F: Fn(usize) -> X + Sync>(
    rt: &R,
    alloc: Global,
    count: usize,
    workers: usize,
    f: &F,
) -> Result<Vec<Result<Vec<Drawn<X>>, AllocError>>, AllocError>
    requires { (i : ℕ) → i < count → F.pre f.now i }
    ensures { IfOk result
        (λ answers. All (λ answer. IfOk answer (λ drawn. All (IsGiven F.Fn f.now count) drawn.items)) answers.items) }
{
    let next = AtomicUsize::new(0);
    let work = |_: usize| -> Result<Vec<Drawn<X>>, AllocError>
        requires { (i : ℕ) → i < count → F.pre f.now i }
        ensures { IfOk result (λ drawn. All (IsGiven F.Fn f.entry.now count) drawn.items) }
    { draw(alloc, &next, count, f) };
    map_indices(rt, alloc, workers, &work)
}

/// Draws numbers as long as they are below `count`, and calls `f` at each of them. Only `AllocError` refuses.
fn draw<X: Drop, F: Fn(usize) -> X>(
    alloc: Global,
    next: &AtomicUsize,
    count: usize,
    f: &F,
) -> Result<Vec<Drawn<X>>, AllocError>
    requires { (i : ℕ) → i < count → F.pre f.now i }
    ensures { IfOk result (λ drawn. All (IsGiven F.Fn f.now count) drawn.items) }
{
    let mut all = Vec::new(alloc);
    for _ in 0..count {
        let number = next.fetch_add(1, Ordering::SeqCst);
        if count <= number {
            return Ok(all);
        }
        let given = f(number);
        all.push(Drawn { number, given })?;
    }
    Ok(all)
}

/// So many places, with nothing in them. Only `AllocError` refuses.
fn make_places<X: Drop>(alloc: Global, count: usize) -> Result<Vec<Option<X>>, AllocError>
    ensures { IfOk result (λ places. places.items ≡ replicate count None) }
{
    let mut places = Vec::with_capacity(alloc, count)?;
    for _ in 0..count {
        places.push(None)?;
    }
    Ok(places)
}

/// What stands at the places. `Err` where one is empty, or memory runs out.
pub(crate) fn take_all<X: Drop>(alloc: Global, places: Vec<Option<X>>) -> Result<Vec<X>, AllocError>
    ensures { IfOk result (λ all. places.items ≡ map (λ x. Some x) all.items) }
{
    let mut all = Vec::with_capacity(alloc, places.len())?;
    for place in places {
        all.push(place.ok_or(AllocError)?)?;
    }
    Ok(all)
}
