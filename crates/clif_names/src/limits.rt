//! Numbers of a text and the limits that they have to keep.
ghost use Rattle.std.specs.Prelude.{◌≡◌};
ghost use Rattle.clif_names.specs.Limits as limits;
ghost use Rattle.clif_names.specs.Noting as spec;

use clk_num::Bits;
use ir_core::Ty;
use name_tables::earlier_spot;
use token_reader::{RawName, RawNumber};

/// What a number is the number of.
#[derive(Clone, Copy, PartialEq, Eq)]
pub enum Limit {
    /// An entity's word, a `ret` or `exn` word, a tag, or a name.
    Entity,
    SlotSize,
    Alignment,
    UserTrap,
    Offset,
    /// An `iconst` of this type.
    Constant(Ty),
}

/// A number of the text, with its limit.
#[derive(Clone, Copy)]
pub struct Limited {
    pub value: i128,
    /// The number's or the word's first byte.
    pub spot: usize,
    pub limit: Limit,
}

impl Limit {
    /// Whether the number keeps the limit.
    fn keeps(self, value: i128) -> bool
        ensures { result ≡ limits.keeps self value }
    {
        match self {
            Limit::Entity => 0 <= value && value <= 4_294_967_294,
            Limit::SlotSize => 0 <= value && value <= 65_536,
            Limit::Alignment => is_power(value),
            Limit::UserTrap => 0 <= value && value <= 65_535,
            Limit::Offset => -2_147_483_648 <= value && value <= 2_147_483_647,
            Limit::Constant(ty) => Bits::fit(ty.width(), value).is_some(),
        }
    }
}

/// Whether the number is a power of two up to 256.
fn is_power(value: i128) -> bool
    ensures { result ≡ limits.is_power value }
{
    value == 1
        || value == 2
        || value == 4
        || value == 8
        || value == 16
        || value == 32
        || value == 64
        || value == 128
        || value == 256
}

/// The number of a word.
pub(crate) fn of_word(limit: Limit, name: RawName) -> Limited
    ensures { result ≡ limits.of_word limit name }
{
    Limited {
        value: name.number as i128,
        spot: name.spot,
        limit,
    }
}

pub(crate) fn of_number(limit: Limit, number: RawNumber) -> Limited
    ensures { result ≡ limits.of_number limit number }
{
    Limited {
        value: number.value,
        spot: number.spot,
        limit,
    }
}

/// The least spot of a number that does not keep its limit, when one more is seen.
#[tactic(auto, unfolding(crate::specs::Noting::note))]
pub(crate) fn note(outside: Option<usize>, number: Limited) -> Option<usize>
    ensures { result ≡ spec.note outside number }
{
    if number.limit.keeps(number.value) {
        outside
    } else {
        earlier_spot(outside, number.spot)
    }
}

/// The same, when a number is seen that may be left out.
pub(crate) fn note_maybe(
    outside: Option<usize>,
    limit: Limit,
    number: Option<RawNumber>,
) -> Option<usize>
    ensures { result ≡ spec.note_maybe outside limit number }
{
    match number {
        None => outside,
        Some(number) => note(outside, of_number(limit, number)),
    }
}
