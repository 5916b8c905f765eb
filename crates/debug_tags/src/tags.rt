//! Lists of debug tags.
ghost use Rattle.std.specs.Prelude.{◌≡◌, ◌++◌, ◌≤◌, ◌↔◌, ◌+◌, ◌<◌, ◌^◌, ℕ, Any, All, List, IfOk, IsTrue, map};
ghost use Rattle.std.specs.List.{list_any};
ghost use Rattle.std.specs.Cmp.Lexicographic.{pointwise, lists_per, lists_equiv};
ghost use Rattle.std.specs.Cmp.Rules.{comparing};
ghost use Rattle.std.proofs.Common.{rules};
ghost use Rattle.debug_tags.specs.declared.tags.Tag.{Tag};
ghost use Rattle.debug_tags.specs.declared.tags.Tag.TheVariants.{User, Slot};
ghost use Rattle.debug_tags.specs.Tags.{is_slot, moved, CanMove};

use std::alloc::{AllocError, Global};
use std::marker::Model;

/// One debug tag.
#[derive(Clone, Copy, PartialEq, Eq, Drop)]
pub enum Tag {
    /// A number of the user's.
    User(u32),
    /// The stack slot of this number, in the function that the tag stands in.
    Slot(u32),
}

impl Tag {
    /// The tag with `by` added to the number of its slot. A user number stays.
    pub fn moved(self, by: u32) -> Tag
        requires { CanMove by self }
        ensures { result ≡ moved by self }
    {
        match self {
            Tag::User(number) => Tag::User(number),
            Tag::Slot(number) => Tag::Slot(number + by),
        }
    }
}

/// The tags of one instruction, in written order. Contracts see them as a list.
#[derive(Drop)]
pub struct Tags {
    list: Vec<Tag>,
}

impl Model for Tags {
    ghost Value = { List Tag };

    ghost view = { λ t. t.list.items };
}

impl Tags {
    /// The tags of this list, in this order.
    pub fn new(list: Vec<Tag>) -> Tags
        ensures { result ≡ list.items }
    {
        Tags { list }
    }

    /// The tags, in written order.
    pub fn list(&self) -> &[Tag]
        ensures { result.now ≡ self.now }
    {
        self.list.as_slice()
    }

    /// Whether a stack slot is among the tags.
    pub fn has_slot(&self) -> bool
        ensures { result ≡ list_any is_slot self.now }
    {
        self.list.iter().any(|tag| matches!(tag, Tag::Slot(_)))
    }

    /// Adds `by` to the number of each slot tag. User numbers stay.
    pub fn map_slots(&mut self, by: u32)
        requires { All (CanMove by) self.old }
        ensures { self.new ≡ map (moved by) self.old }
    {
        for tag in self.list.iter_mut() {
            *tag = tag.moved(by);
        }
    }
}

/// The tags of `outer`, then those of `inner`: the tags of an instruction of the inlined function, at a call site whose
/// own tags are `outer`. Only `AllocError` refuses.
pub fn prefixed(alloc: Global, outer: &Tags, inner: &Tags) -> Result<Tags, AllocError>
    ensures { IfOk result (λ t. t ≡ outer.now ++ inner.now) }
{
    let mut list = Vec::from_slice(alloc, outer.list())?;
    list.extend_from_slice(inner.list())?;
    Ok(Tags::new(list))
}

impl Clone for Tags {
    ghost is_clone = { λ t copy. copy ≡ t };

    fn clone(&self) -> Result<Tags, AllocError> {
        Ok(Tags::new(self.list.clone()?))
    }
}

impl PartialEq for Tags {
    ghost eq = { λ t u. pointwise ⟦<Tag as PartialEq>⟧.eq t u };

    ghost laws = { lists_per (Prim.search (comparing, rules)) };

    fn eq(&self, other: &Tags) -> bool {
        self.list() == other.list()
    }
}

impl Eq for Tags {
    ghost laws = { lists_equiv (Prim.search (comparing, rules)) };
}
