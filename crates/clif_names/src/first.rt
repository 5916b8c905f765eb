//! The first fault of names of a raw module.
ghost use Rattle.std.specs.Prelude.{◌≡◌, IfOk};
ghost use Rattle.clif_names.specs.Faults.{InSomeFunction, IsOneTooMany, ListFault, of_functions};
ghost use Rattle.name_tables.specs.Least.{IsLeast};
ghost use Rattle.clif_names.specs.FirstOf as spec;
ghost use Rattle.clif_names.specs.LeastSpots.{AreLeast};

use crate::function::FunctionNames;
use crate::least::LeastSpots;
use crate::repeated::repeated_name;
use clif_lex::TextKind;
use clif_read::RawFunction;
use name_tables::earlier_spot;
use std::alloc::{AllocError, Global};

/// The most functions that a module may have.
pub const MOST_FUNCTIONS: usize = 65_536;

/// A fault of names or numbers.
#[derive(Clone, Copy, Debug, PartialEq, Eq)]
pub struct NamesFault {
    pub kind: TextKind,
    /// The first byte of the word or number that is wrong.
    pub spot: usize,
}

/// The first fault of names and numbers of the raw module that has these functions, where there is one. Takes time
/// linear in the text, but for the logarithm that words with numbers far apart take.
pub fn first_fault(
    alloc: Global,
    functions: &[RawFunction],
) -> Result<Option<NamesFault>, AllocError>
    ensures { IfOk result (λ fault. spec.IsFirstFault (of_functions functions.now) fault) }
{
    let among = among_functions(alloc, functions)?;
    let inside = inside_functions(alloc, functions)?;
    Ok(first_of(among.join(inside)))
}

/// The least spots of faults inside of functions.
fn inside_functions(alloc: Global, functions: &[RawFunction]) -> Result<LeastSpots, AllocError>
    ensures { IfOk result (λ least. AreLeast (InSomeFunction functions.now) least) }
{
    let mut least = LeastSpots::none();
    for func in functions {
        let names = FunctionNames::of(alloc, func)?;
        least = least.join(names.least(func));
    }
    Ok(least)
}

/// The least spots of the faults among functions: of a name that stood before, and of one function too many. Takes time
/// linear in their names.
pub fn among_functions(alloc: Global, functions: &[RawFunction]) -> Result<LeastSpots, AllocError>
    ensures { IfOk result (λ least. AreLeast (ListFault functions.now) least) }
{
    Ok(LeastSpots {
        duplicate: repeated_name(alloc, functions)?,
        too_large: one_too_many(functions),
        ..LeastSpots::none()
    })
}

/// The least spot of a function before which as many functions stand as a module may have.
fn one_too_many(functions: &[RawFunction]) -> Option<usize>
    ensures { IsLeast (IsOneTooMany functions.now) result }
{
    let mut least = None;
    for (place, func) in functions.iter().enumerate() {
        if place >= MOST_FUNCTIONS {
            least = earlier_spot(least, func.name.spot());
        }
    }
    least
}

/// The fault of this kind at the spot, where there is a spot, or the first one so far.
fn or_earlier(first: Option<NamesFault>, kind: TextKind, spot: Option<usize>) -> Option<NamesFault>
    ensures { result ≡ spec.or_earlier first kind spot }
{
    match (first, spot) {
        (first, None) => first,
        (None, Some(spot)) => Some(NamesFault { kind, spot }),
        (Some(fault), Some(spot)) => {
            if spot < fault.spot {
                Some(NamesFault { kind, spot })
            } else {
                Some(fault)
            }
        }
    }
}

/// The first of the faults with these least spots.
fn first_of(least: LeastSpots) -> Option<NamesFault>
    ensures { result ≡ spec.first_of least }
{
    let first = or_earlier(None, TextKind::Duplicate, least.duplicate);
    let first = or_earlier(first, TextKind::Undefined, least.undefined);
    let first = or_earlier(first, TextKind::NumberRange, least.number_range);
    let first = or_earlier(first, TextKind::Untyped, least.untyped);
    or_earlier(first, TextKind::TooLarge, least.too_large)
}
