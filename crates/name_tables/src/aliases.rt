//! What alias lines stand for.
ghost use Rattle.std.specs.Prelude.{◌≡◌, ◌≤◌, IfOk, length, map, slice_get};
ghost use Rattle.std.specs.List.{list_any};
ghost use Rattle.name_tables.specs.Links.{InRange, AreEnds};
ghost use Rattle.name_tables.specs.Aliases as spec;

use crate::firsts::Def;
use crate::links::{End, Ends, Link};
use crate::spots::earlier_spot;
use crate::words::Words;
use std::alloc::{AllocError, Global};
use std::marker::Model;
use token_reader::RawName;

/// What stands behind a definition: a value, or the place of the word that it stands for.
fn link_to(words: &Words, target: Option<RawName>) -> Link
    ensures { result ≡ spec.link_to words.now target }
{
    match target {
        None => Link::Value,
        Some(name) => match words.place(name.number) {
            Some(place) => Link::To(place),
            None => Link::Missing,
        },
    }
}

/// Whether there is an alias line among definitions.
fn has_alias(firsts: &[Def]) -> bool
    ensures { result ≡ list_any spec.is_alias firsts.now }
{
    for first in firsts {
        if first.target.is_some() {
            return true;
        }
    }
    false
}

/// What stands behind each definition.
#[tactic(auto, using(crate::proofs::Folds::map_more))]
fn links(alloc: Global, words: &Words, firsts: &[Def]) -> Result<Vec<Link>, AllocError>
    ensures { IfOk result (λ links. links.items ≡ map (spec.link_of words.now) firsts.now) }
{
    let mut links = Vec::with_capacity(alloc, firsts.len())?;
    for first in firsts {
        links.push(link_to(words, first.target))?;
    }
    Ok(links)
}

/// How the chain of each definition ends. Without an alias line they take no memory.
pub fn ends(alloc: Global, words: &Words, firsts: &[Def]) -> Result<Ends, AllocError>
    requires links_in_range { InRange (map (spec.link_of words.now) firsts.now) }
    ensures { IfOk result (λ ends. AreEnds (map (spec.link_of words.now) firsts.now) ends) }
{
    if !has_alias(firsts) {
        return Ok(Ends::of_values(alloc, firsts.len()));
    }
    let links = links(alloc, words, firsts)?;
    Ends::of_links(alloc, &links)
}

/// How many values a definition defines: an alias line none.
#[inline]
fn value_count(def: &Def) -> usize
    ensures count { result ≡ spec.value_count def.now }
    ensures small { result ≤ 1 }
{
    match def.target {
        None => 1,
        Some(_) => 0,
    }
}

/// How many values are defined before each of some definitions. Contracts see the list of these numbers.
#[derive(Drop)]
pub struct Counts {
    /// How many of them at the front are 0, 1, 2 and so on. They take no memory.
    run: usize,
    /// Those behind them.
    listed: Vec<usize>,
}

impl Model for Counts {
    ghost use Rattle.std.specs.Prelude.{List, ℕ, ◌+◌, ◌<◌, ◌^◌, length};
    ghost use Rattle.name_tables.specs.Aliases.{counts_of};

    ghost Value = { List ℕ };

    ghost view = { λ counts. counts_of counts.run counts.listed.items };

    ghost invariant = { λ counts. counts.run + length counts.listed.items < 2 ^ 64 };
}

impl Counts {
    /// How many numbers there are.
    #[inline]
    pub fn len(&self) -> usize
        ensures { result ≡ length self.now }
    {
        self.run + self.listed.len()
    }

    /// The number at a place.
    #[inline]
    pub fn get(&self, place: usize) -> Option<usize>
        ensures { result ≡ slice_get self.now place }
    {
        if place < self.run {
            return Some(place);
        }
        match self.listed.get(place - self.run) {
            Some(count) => Some(*count),
            None => None,
        }
    }
}

/// How many values are defined before each definition, and at last by all of them. Without an alias line they take no
/// memory.
pub fn values_before(alloc: Global, firsts: &[Def]) -> Result<Counts, AllocError>
    ensures { IfOk result (λ counts. spec.AreCounts firsts.now counts) }
{
    if !has_alias(firsts) {
        return Ok(Counts {
            run: firsts.len() + 1,
            listed: Vec::new(alloc),
        });
    }
    Ok(Counts {
        run: 0,
        listed: list_counts(alloc, firsts)?,
    })
}

/// How many values are defined before each definition, and at last by all of them.
fn list_counts(alloc: Global, firsts: &[Def]) -> Result<Vec<usize>, AllocError>
    ensures { IfOk result (λ counts. spec.AreCounts firsts.now counts.items) }
{
    let mut counts = Vec::with_capacity(alloc, firsts.len().saturating_add(1))?;
    let mut count = 0usize;
    for first in firsts {
        counts.push(count)?;
        count += value_count(first);
    }
    counts.push(count)?;
    Ok(counts)
}

/// The earlier of the least spot so far and that of a definition, where the chain of the definition never ends.
#[inline]
fn note_end(least: Option<usize>, spot: usize, end: End) -> Option<usize>
    ensures { result ≡ spec.note_end least spot end }
{
    match end {
        End::At(_) | End::Nowhere => least,
        End::Endless => earlier_spot(least, spot),
    }
}

/// The least spot of an alias line whose chain never ends.
pub fn endless(firsts: &[Def], ends: &Ends) -> Option<usize>
    ensures { result ≡ spec.least_endless firsts.now ends.now }
{
    if ends.is_of_values() {
        return None;
    }
    let mut least = None;
    for (place, first) in firsts.iter().enumerate() {
        if let Some(end) = ends.get(place) {
            least = note_end(least, first.name.spot, end);
        }
    }
    least
}
