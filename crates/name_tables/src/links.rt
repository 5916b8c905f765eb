//! The ends of chains of alias lines.
ghost use Rattle.std.specs.Prelude.{◌≡◌, ◌+◌, ◌<◌, [], length, true, IfOk, slice_get};
ghost use Rattle.name_tables.specs.Links.{InRange, AreRight, AreBelow, AreEnds, Means, ends_of, walks};

use std::alloc::{AllocError, Global};
use std::marker::Model;

/// What stands behind a word.
#[derive(Clone, Copy)]
pub enum Link {
    Value,
    Missing,
    To(usize),
}

/// How a chain ends.
#[derive(Clone, Copy)]
pub enum End {
    At(usize),
    Nowhere,
    Endless,
}

#[derive(Clone, Copy)]
enum Mark {
    Open,
    Walking(usize),
    Ended(End),
}

/// The end of the chain from `start`. Marks the words on the way with it.
fn walk(links: &[Link], marks: &mut [Mark], start: usize) -> End
    requires start_in_range { start < length links.now }
    requires links_in_range { InRange links.now }
    requires as_long { length marks.old ≡ length links.now }
    requires right { AreRight links.now marks.old }
    requires below { AreBelow start marks.old }
    ensures right { AreRight links.now marks.new }
    ensures below { AreBelow (start + 1) marks.new }
    ensures means { Means links.now result start }
{
    let mut at = start;
    let end = 'walk: loop {
        match marks[at] {
            Mark::Ended(end) => break 'walk end,
            Mark::Walking(by) => {
                if by == start {
                    break 'walk End::Endless;
                }
            }
            Mark::Open => {}
        }
        match links[at] {
            Link::Value => break 'walk End::At(at),
            Link::Missing => break 'walk End::Nowhere,
            Link::To(next) => {
                marks[at] = Mark::Walking(start);
                at = next;
            }
        }
    };
    settle(links, marks, start, end);
    end
}

/// Marks the words that the walk from `start` passed.
fn settle(links: &[Link], marks: &mut [Mark], start: usize, end: End)
    requires start_in_range { start < length links.now }
    requires links_in_range { InRange links.now }
    requires as_long { length marks.old ≡ length links.now }
    requires right { AreRight links.now marks.old }
    requires below { AreBelow (start + 1) marks.old }
    requires means { Means links.now end start }
    ensures right { AreRight links.now marks.new }
    ensures below { AreBelow (start + 1) marks.new }
    ensures means { Means links.now end start }
{
    let mut at = start;
    'settle: while is_walking(marks[at], start) {
        marks[at] = Mark::Ended(end);
        match links[at] {
            Link::To(next) => at = next,
            Link::Value | Link::Missing => break 'settle,
        }
    }
}

fn is_walking(mark: Mark, start: usize) -> bool
    ensures { result ≡ walks start mark }
{
    match mark {
        Mark::Walking(by) => by == start,
        Mark::Open | Mark::Ended(_) => false,
    }
}

/// The ends of chains in order. Contracts see their list.
#[derive(Drop)]
pub struct Ends {
    /// How many words at the front are each the end of their own chain. They take no memory.
    run: usize,
    /// The ends behind them.
    listed: Vec<End>,
}

impl Model for Ends {
    ghost use Rattle.std.specs.Prelude.{List};
    ghost use Rattle.name_tables.specs.declared.links.End.{End};
    ghost use Rattle.name_tables.specs.Links.{ends_of};

    ghost Value = { List End };

    ghost view = { λ ends. ends_of ends.run ends.listed.items };
}

impl Ends {
    /// So many words that are each the end of their own chain.
    pub(crate) fn of_values(alloc: Global, count: usize) -> Ends
        ensures { result ≡ ends_of count [] }
    {
        Ends {
            run: count,
            listed: Vec::new(alloc),
        }
    }

    /// The end of each word's chain.
    pub(crate) fn of_links(alloc: Global, links: &[Link]) -> Result<Ends, AllocError>
        requires links_in_range { InRange links.now }
        ensures { IfOk result (λ ends. AreEnds links.now ends) }
    {
        Ok(Ends {
            run: 0,
            listed: list_ends(alloc, links)?,
        })
    }

    /// The end at a place.
    #[inline]
    pub fn get(&self, place: usize) -> Option<End>
        ensures { result ≡ slice_get self.now place }
    {
        if place < self.run {
            return Some(End::At(place));
        }
        match self.listed.get(place - self.run) {
            Some(end) => Some(*end),
            None => None,
        }
    }

    /// Whether no other words are known than those that are each the end of their own chain.
    pub(crate) fn is_of_values(&self) -> bool
        ensures { result ≡ true → self.now ≡ ends_of (length self.now) [] }
    {
        self.listed.is_empty()
    }
}

/// The end of each word's chain.
fn list_ends(alloc: Global, links: &[Link]) -> Result<Vec<End>, AllocError>
    requires links_in_range { InRange links.now }
    ensures { IfOk result (λ v. AreEnds links.now v.items) }
{
    let mut marks = vec![in alloc; Mark::Open; links.len()]?;
    let mut ends = Vec::with_capacity(alloc, links.len())?;
    for i in 0..links.len() {
        ends.push(walk(links, &mut marks, i))?;
    }
    Ok(ends)
}
