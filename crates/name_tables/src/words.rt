//! Words of one kind in the order in which they came, with a short way from a word to its place.
ghost use Rattle.std.specs.Prelude.{◌≡◌, ◌<◌, ◌++◌, ◌∷◌, [], ◌+◌, ◌^◌, Option, None, IfSome, length, OnOk, nat_eq};
ghost use Rattle.std.specs.Prelude.{position, true, Some, IfOk, get_or};
ghost use Rattle.name_tables.specs.Dense.{SameAt, IsIncreasing, LeadToPlaces, AreRight, or_far};

use indexmap::IndexMap;
use std::alloc::{AllocError, Global};
use std::marker::Model;

/// Different words in order. Contracts see the list of their numbers.
#[derive(Drop)]
pub struct Words {
    /// How many words at the front are each their own place: 0, 1, 2 and so on. They take no memory.
    run: usize,
    /// The words behind them, where there are any.
    behind: Option<Box<Behind>>,
    alloc: Global,
}

impl Model for Words {
    ghost use Rattle.std.specs.Prelude.{◌<◌, ◌^◌, List, ℕ};
    ghost use Rattle.name_tables.specs.Dense.{words_of, or_no_words};

    ghost Value = { List ℕ };

    ghost view = { λ w. words_of w.run (or_no_words w.behind) };

    ghost invariant = { λ w. w.run < 2 ^ 32 };
}

impl Words {
    /// No words.
    pub(crate) fn new(alloc: Global) -> Words
        ensures { result ≡ [] }
    {
        Words {
            run: 0,
            behind: None,
            alloc,
        }
    }

    /// How many there are.
    #[inline]
    pub fn len(&self) -> usize
        ensures { result ≡ length self.now }
    {
        match &self.behind {
            None => self.run,
            Some(behind) => self.run + behind.len(),
        }
    }

    /// The place of a word.
    #[inline]
    pub fn place(&self, word: u64) -> Option<usize>
        ensures place { result ≡ position (nat_eq word) self.now }
        ensures small { IfSome result (λ place. place + 1 < 2 ^ 64) }
    {
        let run = self.run as u64;
        if word < run {
            return Some(word as usize);
        }
        match &self.behind {
            None => None,
            Some(behind) => match behind.place(word - run) {
                Some(place) => Some(self.run + place),
                None => None,
            },
        }
    }

    /// Appends a word that isn't there.
    #[inline]
    pub(crate) fn push(&mut self, word: u64) -> Result<(), AllocError>
        requires { position (nat_eq word) self.old ≡ None }
        ensures { OnOk result (self.new ≡ self.old ++ word ∷ []) }
    {
        if self.behind.is_none() && word == self.run as u64 && self.run < u32::MAX as usize {
            self.run += 1;
            return Ok(());
        }
        self.push_behind(word)
    }

    /// Appends a word that isn't there to those behind the run.
    #[inline(never)]
    fn push_behind(&mut self, word: u64) -> Result<(), AllocError>
        requires { position (nat_eq word) self.old ≡ None }
        ensures { OnOk result (self.new ≡ self.old ++ word ∷ []) }
    {
        let word = word - self.run as u64;
        match &mut self.behind {
            Some(behind) => behind.push(word),
            None => {
                let mut behind = Behind::new(self.alloc);
                behind.push(word)?;
                self.behind = Some(Box::new(self.alloc, behind)?);
                Ok(())
            }
        }
    }
}

/// Different words in order, each less the length of the run before them. Contracts see their list.
#[derive(Drop)]
struct Behind {
    order: Vec<u64>,
    /// One more than the place of each word with a small number, or 0.
    near: Vec<u32>,
    /// The places of the other words. None as long as each word is greater than the one before it: then the order is
    /// searched.
    far: Option<IndexMap<u64, usize>>,
    alloc: Global,
}

impl Model for Behind {
    ghost use Rattle.std.specs.Prelude.{List, ℕ};
    ghost use Rattle.name_tables.specs.Dense.{AreRight};

    ghost Value = { List ℕ };

    ghost view = { λ b. b.order.items };

    ghost invariant = { λ b. AreRight b.order.items b.near.items b.far };
}

impl Behind {
    /// No words.
    fn new(alloc: Global) -> Behind
        ensures { result ≡ [] }
    {
        Behind {
            order: Vec::new(alloc),
            near: Vec::new(alloc),
            far: None,
            alloc,
        }
    }

    /// How many there are.
    fn len(&self) -> usize
        ensures len { result ≡ length self.now }
        ensures small { result < 2 ^ 63 }
    {
        self.order.len()
    }

    /// The place of a word.
    #[inline(never)]
    fn place(&self, word: u64) -> Option<usize>
        ensures place { result ≡ position (nat_eq word) self.now }
        ensures small { IfSome result (λ place. place < 2 ^ 63) }
    {
        match near_place(&self.near, word) {
            Some(place) => Some(place),
            None => match &self.far {
                Some(far) => far.get(&word).copied(),
                None => self.order.binary_search(&word).ok(),
            },
        }
    }

    /// Appends a word that isn't there.
    fn push(&mut self, word: u64) -> Result<(), AllocError>
        requires { position (nat_eq word) self.old ≡ None }
        ensures { OnOk result (self.new ≡ self.old ++ word ∷ []) }
    {
        keep_far(self.alloc, &mut self.far, &self.order, &self.near, word)?;
        let place = self.order.len();
        if word / 4 <= place as u64 + 256 && place < u32::MAX as usize {
            grow(&mut self.near, word as usize)?;
            self.order.push(word)?;
            self.near[word as usize] = place as u32 + 1;
            return Ok(());
        }
        self.order.push(word)?;
        let Some(far) = &mut self.far else {
            return Ok(());
        };
        match far.insert(word, place) {
            Ok(_) => Ok(()),
            Err(failed) => {
                self.order.pop();
                Err(failed.into())
            }
        }
    }
}

/// What the short way tells of a word.
#[inline]
fn near_place(near: &[u32], word: u64) -> Option<usize>
    ensures place { result ≡ or_far (get_or near.now word 0) None }
    ensures small { IfSome result (λ place. place < 2 ^ 32) }
{
    match near.get(word as usize) {
        Some(0) | None => None,
        Some(next) => Some(*next as usize - 1),
    }
}

/// Whether a word is greater than the last of these.
fn is_above(word: u64, order: &[u64]) -> bool
    ensures { result ≡ true → IsIncreasing order.now → IsIncreasing (order.now ++ word ∷ []) }
{
    match order.last() {
        None => true,
        Some(last) => *last < word,
    }
}

/// The places of those words that the short way doesn't tell.
fn far_places(
    alloc: Global,
    order: &[u64],
    near: &[u32],
) -> Result<IndexMap<u64, usize>, AllocError>
    requires increasing { IsIncreasing order.now }
    requires near { LeadToPlaces order.now near.now None }
    ensures { IfOk result (λ far. LeadToPlaces order.now near.now (Some far)) }
{
    let mut far = IndexMap::new(alloc);
    for (place, word) in order.iter().enumerate() {
        if near_place(near, *word).is_none() {
            far.insert(*word, place)?;
        }
    }
    Ok(far)
}

/// Keeps the long way from here on, unless each word, this one too, is greater than the one before it.
fn keep_far(
    alloc: Global,
    far: &mut Option<IndexMap<u64, usize>>,
    order: &[u64],
    near: &[u32],
    word: u64,
) -> Result<(), AllocError>
    requires { AreRight order.now near.now far.old }
    ensures right { AreRight order.now near.now far.new }
    ensures increasing { OnOk result (far.new ≡ None → IsIncreasing (order.now ++ word ∷ [])) }
{
    if far.is_none() && !is_above(word, order) {
        *far = Some(far_places(alloc, order, near)?);
    }
    Ok(())
}

/// Makes room for the place of a word.
fn grow(near: &mut Vec<u32>, word: usize) -> Result<(), AllocError>
    requires { word < 18446744073709551615 }
    ensures long { OnOk result (word < length near.new.items) }
    ensures same { SameAt near.old.items near.new.items }
{
    while near.len() <= word {
        near.push(0)?;
    }
    Ok(())
}
