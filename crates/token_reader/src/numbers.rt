//! Numbers and offsets.

ghost use Rattle.std.specs.Prelude.{◌≢◌, ◌<◌, ◌≤◌, length, IfOk, IfErr};
ghost use Rattle.token_reader.specs.declared.stop.Stop.TheVariants.{NoMemory};
ghost use Rattle.token_reader.specs.Reading.{Gives, same};
ghost use Rattle.token_reader.specs.Numbers as spec;

use crate::raw::RawNumber;
use crate::reader::Reader;
use crate::stop::Stop;
use clif_words::Class;
use ir_core::Boxed;
use std::alloc::Global;

/// A number.
#[tactic(auto, unfolding(crate::specs::Numbers::number_at))]
pub fn read_number(reader: &mut Reader<'_>) -> Result<RawNumber, Stop>
    ensures is { Gives same reader.new result (spec.number_at reader.old) }
    ensures no_memory { IfErr result (λ e. e ≢ NoMemory) }
    ensures shorter { IfOk result (λ _. length reader.new < length reader.old) }
{
    if reader.next_is(Class::Unsigned) {
        reader.take_number(Class::Unsigned)
    } else {
        reader.take_number(Class::Signed)
    }
}

/// An offset, if there is one, behind a pointer: so an instruction is no larger for it.
#[tactic(auto, unfolding(crate::specs::Numbers::offset_at))]
pub fn read_offset(alloc: Global, reader: &mut Reader<'_>) -> Result<Option<Boxed<RawNumber>>, Stop>
    ensures is { Gives same reader.new result (spec.offset_at reader.old) }
    ensures shorter { IfOk result (λ _. length reader.new ≤ length reader.old) }
{
    if reader.next_is(Class::Signed) {
        let number = reader.take_number(Class::Signed)?;
        Ok(Some(Boxed::new(alloc, number)?))
    } else {
        Ok(None)
    }
}
