//! Lists of what is read.

ghost use Rattle.std.specs.Prelude.{◌≡◌, ◌∷◌, [], IfOk, IfErr};
ghost use Rattle.token_reader.specs.declared.stop.Stop.TheVariants.{NoMemory};

use crate::stop::Stop;
use std::alloc::Global;

/// The list of this item alone, in a block for one: most lists of a text get no second item.
pub fn start_list<T: Drop>(alloc: Global, item: T) -> Result<Vec<T>, Stop>
    ensures some { IfOk result (λ list. list.items ≡ item ∷ []) }
    ensures none { IfErr result (λ e. e ≡ NoMemory) }
{
    start_list_in_room(alloc, item, 1)
}

/// The list of this item alone, in a block for so many.
#[inline]
pub fn start_list_in_room<T: Drop>(alloc: Global, item: T, room: usize) -> Result<Vec<T>, Stop>
    ensures some { IfOk result (λ list. list.items ≡ item ∷ []) }
    ensures none { IfErr result (λ e. e ≡ NoMemory) }
{
    let mut list = Vec::with_capacity(alloc, room)?;
    list.push(item)?;
    Ok(list)
}
