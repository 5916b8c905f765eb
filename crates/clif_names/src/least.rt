//! The least spots of faults.
ghost use Rattle.std.specs.Prelude.{◌≡◌};
ghost use Rattle.clif_names.specs.LeastSpots as spec;

use crate::sizes::function_size;
use crate::uses::Uses;
use clif_read::RawFunction;
use ir_core::GREATEST_SIZE;
use name_tables::earlier_of;

/// The least spot of a fault of each kind, where there is one.
#[derive(Clone, Copy)]
pub struct LeastSpots {
    pub duplicate: Option<usize>,
    pub undefined: Option<usize>,
    pub number_range: Option<usize>,
    pub untyped: Option<usize>,
    pub too_large: Option<usize>,
}

impl LeastSpots {
    pub(crate) fn none() -> LeastSpots
        ensures { result ≡ spec.no_spots }
    {
        LeastSpots {
            duplicate: None,
            undefined: None,
            number_range: None,
            untyped: None,
            too_large: None,
        }
    }

    /// Whether there is no fault.
    pub fn is_none(&self) -> bool
        ensures { result ≡ spec.has_none self.now }
    {
        self.duplicate.is_none()
            && self.undefined.is_none()
            && self.number_range.is_none()
            && self.untyped.is_none()
            && self.too_large.is_none()
    }

    /// The least spots of two sets of faults.
    pub(crate) fn join(self, other: LeastSpots) -> LeastSpots
        ensures { result ≡ spec.joined self other }
    {
        LeastSpots {
            duplicate: earlier_of(self.duplicate, other.duplicate),
            undefined: earlier_of(self.undefined, other.undefined),
            number_range: earlier_of(self.number_range, other.number_range),
            untyped: earlier_of(self.untyped, other.untyped),
            too_large: earlier_of(self.too_large, other.too_large),
        }
    }

    /// The least spots of a function, where its words were used and `endless` is that of the alias lines.
    pub(crate) fn of_function(uses: &Uses, endless: Option<usize>, func: &RawFunction) -> LeastSpots
        ensures { result ≡ spec.least_of uses.now endless func.now }
    {
        LeastSpots {
            duplicate: repeated(uses),
            undefined: earlier_of(missing(uses), endless),
            number_range: earlier_of(outside(uses), uses.outside),
            untyped: uses.untyped,
            too_large: too_large(func),
        }
    }
}

/// The least of five spots.
#[tactic(auto, unfolding(crate::specs::LeastSpots::earliest))]
fn earliest(
    a: Option<usize>,
    b: Option<usize>,
    c: Option<usize>,
    d: Option<usize>,
    e: Option<usize>,
) -> Option<usize>
    ensures { result ≡ spec.earliest a b c d e }
{
    earlier_of(earlier_of(earlier_of(earlier_of(a, b), c), d), e)
}

fn repeated(uses: &Uses) -> Option<usize>
    ensures { result ≡ spec.repeated_of uses.now }
{
    earliest(
        uses.slots.repeated,
        uses.sigs.repeated,
        uses.callees.repeated,
        uses.blocks.repeated,
        uses.values.repeated,
    )
}

fn missing(uses: &Uses) -> Option<usize>
    ensures { result ≡ spec.missing_of uses.now }
{
    earliest(
        uses.slots.missing,
        uses.sigs.missing,
        uses.callees.missing,
        uses.blocks.missing,
        uses.values.missing,
    )
}

fn outside(uses: &Uses) -> Option<usize>
    ensures { result ≡ spec.outside_of uses.now }
{
    earliest(
        uses.slots.outside,
        uses.sigs.outside,
        uses.callees.outside,
        uses.blocks.outside,
        uses.values.outside,
    )
}

fn too_large(func: &RawFunction) -> Option<usize>
    ensures { result ≡ spec.too_large_of func.now }
{
    if function_size(func) > GREATEST_SIZE {
        Some(func.name.spot())
    } else {
        None
    }
}
