//! Names of functions that an earlier function has.
ghost use Rattle.std.specs.Prelude.{◌≡◌, IfOk, OnOk, MatchBool, not};
ghost use Rattle.clif_names.specs.Faults.{RepeatsName};
ghost use Rattle.name_tables.specs.Least.{IsLeast};
ghost use Rattle.clif_names.specs.NameSets.{AddsName, Has, IsEmptySet, inserted, same_pair};
ghost use Rattle.indexmap.specs.IndexSet.{keys};
ghost use Rattle.std.specs.List.{list_any};

use clif_read::{RawFuncName, RawFunction};
use indexmap::IndexSet;
use name_tables::earlier_spot;
use std::alloc::{AllocError, Global};
use token_reader::RawNumber;

/// The names of the functions so far.
#[derive(Drop)]
struct NameSet<'a> {
    texts: IndexSet<&'a [u8]>,
    users: IndexSet<(u64, i128)>,
}

impl<'a> NameSet<'a> {
    fn new(alloc: Global) -> NameSet<'a>
        ensures { IsEmptySet result }
    {
        NameSet {
            texts: IndexSet::new(alloc),
            users: IndexSet::new(alloc),
        }
    }

    /// Takes a name, and says whether it is new.
    fn insert(&mut self, name: &'a RawFuncName) -> Result<bool, AllocError>
        ensures added { IfOk result (λ is_new. MatchBool is_new (¬ Has self.old name.now) (Has self.old name.now)) }
        ensures names { OnOk result (AddsName self.old self.new name.now) }
    {
        match name {
            RawFuncName::Text { name, .. } => {
                let (_, is_new) = self.texts.insert_full(name.as_slice())?;
                Ok(is_new)
            }
            RawFuncName::User { space, number } => {
                insert_user(&mut self.users, space.number, *number)
            }
        }
    }
}

/// Takes the two numbers of a name, and says whether they are new.
fn insert_user(
    users: &mut IndexSet<(u64, i128)>,
    space: u64,
    number: RawNumber,
) -> Result<bool, AllocError>
    ensures added { IfOk result (λ is_new. is_new ≡ not (list_any (same_pair (space, number.value)) (keys users.old))) }
    ensures keys { OnOk result (keys users.new ≡ inserted same_pair (keys users.old) (space, number.value)) }
{
    let (_, is_new) = users.insert_full((space, number.value))?;
    Ok(is_new)
}

/// The least spot of a function's name that an earlier function has.
pub(crate) fn repeated_name(
    alloc: Global,
    functions: &[RawFunction],
) -> Result<Option<usize>, AllocError>
    ensures { IfOk result (IsLeast (RepeatsName functions.now)) }
{
    let mut names = NameSet::new(alloc);
    let mut least = None;
    for func in functions {
        if !names.insert(&func.name)? {
            least = earlier_spot(least, func.name.spot());
        }
    }
    Ok(least)
}
