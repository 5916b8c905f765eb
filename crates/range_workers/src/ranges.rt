//! Ranges read stretch by stretch, by several workers at once.

ghost use Rattle.std.specs.Prelude.{◌≡◌, ◌+◌, ◌<◌, ◌≤◌, ◌++◌, ℕ, List, IfSome, flat_map, length};
ghost use Rattle.std.specs.Prelude.{slice_index, slice_index_or};
ghost use Rattle.range_workers.specs.Follow.{Follow, ArePartEnds};

use crate::drawing::{PARTS_OF_A_WORKER, map_drawn, take_all};
use crate::room::make_room;
use std::alloc::Global;
use std::thread::Threads;

/// More workers than a machine has processors are of no use.
const MOST_WORKERS: usize = 64;

/// What is read range by range, as places of a text or of the list of its tokens, into items.
pub trait Ranges<T>: Sync {
    /// Two places, one behind the other or the same.
    ghost range: { Self → ℕ → ℕ → Type 0 };

    /// From the first place to the second stand these items, and nothing else.
    ghost stand: { Self → ℕ → ℕ → List T → Type 0 };

    /// Where a stretch of a range ends.
    fn find_stretch_end(&self, from: usize, end: usize, size: usize) -> usize
        requires { range self.now from «end» }
        ensures stretch { range self.now from result }
        ensures rest { range self.now result «end» }
        ensures forward { from < «end» → from < result };

    /// The items of one stretch. None where anything else stands there, or memory runs out.
    fn read_stretch(&self, alloc: Global, from: usize, end: usize) -> Option<Vec<T>>
        requires { range self.now from «end» }
        ensures { IfSome result (λ found. Follow (stand self.now) from «end» found.items) };

    /// The first place is not behind the second.
    ghost ordered: { (s : Self) (from to : ℕ) → range s from to → from ≤ to };
}

/// The items of one range and those of the next. None where memory runs out.
pub fn join_items<T: Drop>(mut found: Vec<T>, mut more: Vec<T>) -> Option<Vec<T>>
    ensures { IfSome result (λ all. all.items ≡ found.items ++ more.items) }
{
    match found.append(&mut more) {
        Ok(()) => Some(found),
        Err(_) => None,
    }
}

/// The items of a range, read stretch by stretch. None where anything else stands there, or memory runs out.
fn read_range<T: Drop, P: Ranges<T>>(
    alloc: Global,
    ranges: &P,
    from: usize,
    end: usize,
    size: usize,
) -> Option<Vec<T>>
    requires { P.range ranges.now from «end» }
    ensures { IfSome result (λ found. Follow (P.stand ranges.now) from «end» found.items) }
{
    let mut found = Vec::new(alloc);
    let mut at = from;
    'stretches: while at < end {
        let next = ranges.find_stretch_end(at, end, size);
        make_room(alloc);
        let more = ranges.read_stretch(alloc, at, next)?;
        found = join_items(found, more)?;
        at = next;
    }
    Some(found)
}

/// Where a stretch ends that may end before any item: so many items on, but at least one, or with the range.
pub fn end_behind(from: usize, end: usize, size: usize) -> usize
    requires { from ≤ «end» }
    ensures within { (from ≤ result) × (result ≤ «end») }
    ensures forward { from < «end» → from < result }
{
    if end - from <= size {
        return end;
    }
    from + size.max(1)
}

/// The places at which the parts of a range begin, each about as long as the share, and the place at which the last of
/// them ends. None where memory runs out.
fn find_cuts<T, P: Ranges<T>>(
    alloc: Global,
    ranges: &P,
    from: usize,
    end: usize,
    share: usize,
) -> Option<Vec<usize>>
    requires { P.range ranges.now from «end» }
    ensures { IfSome result (λ cuts. ArePartEnds (P.range ranges.now) from «end» cuts.items) }
{
    let mut cuts = Vec::new(alloc);
    cuts.push(from).ok()?;
    let mut at = from;
    'parts: while at < end {
        at = ranges.find_stretch_end(at, end, share);
        cuts.push(at).ok()?;
    }
    Some(cuts)
}

/// The items of each part of a range between its cuts, read by so many workers, each of which draws the next part when
/// it has read one. None where memory runs out.
fn read_parts<R: Threads + Sync, T: Drop + Send, P: Ranges<T>>(
    rt: &R,
    alloc: Global,
    ranges: &P,
    cuts: &[usize],
    workers: usize,
    size: usize,
) -> Option<Vec<Option<Vec<T>>>>
    requires some { 0 < length cuts.now }
    requires each { (i : ℕ) → i + 1 < length cuts.now
        → P.range ranges.now (slice_index cuts.now i) (slice_index cuts.now (i + 1)) }
    ensures number { IfSome result (λ answers. length answers.items + 1 ≡ length cuts.now) }
    ensures each { IfSome result
        (λ answers. (i : ℕ) (d : _) → i + 1 < length cuts.now
        → IfSome (slice_index_or answers.items i d)
        (λ found. Follow (P.stand ranges.now) (slice_index cuts.now i) (slice_index cuts.now (i + 1)) found.items)) }
{
    let read = |i: usize| -> Option<Vec<T>>
        requires { (i + 1 < length cuts.now)
            × P.range ranges.now (slice_index cuts.now i) (slice_index cuts.now (i + 1)) }
        ensures { IfSome result
            (λ found. Follow (P.stand ranges.entry.now) (slice_index cuts.entry.now i)
            (slice_index cuts.entry.now (i + 1)) found.items) }
    { read_range(alloc, ranges, cuts[i], cuts[i + 1], size) };
    map_drawn(rt, alloc, cuts.len() - 1, workers, &read).ok()
}

/// How many items the lists have.
fn count_items<T>(lists: &[Vec<T>]) -> usize {
    let mut count = 0usize;
    for list in lists {
        count = count.saturating_add(list.len());
    }
    count
}

/// The items of all lists, one list behind the other. None where memory runs out.
fn join_lists<T: Drop>(alloc: Global, lists: Vec<Vec<T>>) -> Option<Vec<T>>
    ensures { IfSome result (λ all. all.items ≡ flat_map (λ list. list.items) lists.items) }
{
    let mut all = Vec::with_capacity(alloc, count_items(lists.as_slice())).ok()?;
    for mut list in lists {
        all.append(&mut list).ok()?;
    }
    Some(all)
}

/// The items of a range, read by so many workers at once, but by at most 64. None where anything else stands there, or
/// memory runs out.
pub fn read_by_workers<R: Threads + Sync, T: Drop + Send, P: Ranges<T>>(
    rt: &R,
    alloc: Global,
    ranges: &P,
    from: usize,
    end: usize,
    workers: usize,
    size: usize,
) -> Option<Vec<T>>
    requires { P.range ranges.now from «end» }
    ensures { IfSome result (λ found. Follow (P.stand ranges.now) from «end» found.items) }
{
    if workers <= 1 || end - from <= size {
        return read_range(alloc, ranges, from, end, size);
    }
    let workers = workers.min(MOST_WORKERS);
    let share = (end - from) / (workers * PARTS_OF_A_WORKER);
    let cuts = find_cuts(alloc, ranges, from, end, share.max(size))?;
    let answers = read_parts(rt, alloc, ranges, cuts.as_slice(), workers, size)?;
    let Ok(lists) = take_all(alloc, answers) else {
        return None;
    };
    join_lists(alloc, lists)
}
