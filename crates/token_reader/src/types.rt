//! Types and suffixes.

ghost use Rattle.std.specs.Prelude.{◌≢◌, ◌<◌, ◌≤◌, length, IfOk, IfErr};
ghost use Rattle.token_reader.specs.declared.stop.Stop.TheVariants.{NoMemory};
ghost use Rattle.token_reader.specs.Reading.{Gives, same};
ghost use Rattle.token_reader.specs.Types as spec;

use crate::raw::RawName;
use crate::reader::Reader;
use crate::stop::Stop;
use clif_words::{Class, Terminal, Word};
use ir_core::Ty;

/// A type.
#[tactic(auto, unfolding(crate::specs::Types::type_at, crate::specs::Reading::name_at))]
pub fn read_type(reader: &mut Reader<'_>) -> Result<Ty, Stop>
    ensures is { Gives same reader.new result (spec.type_at reader.old) }
    ensures no_memory { IfErr result (λ e. e ≢ NoMemory) }
    ensures shorter { IfOk result (λ _. length reader.new < length reader.old) }
{
    match reader.next_terminal() {
        Some(Terminal::Word(Word::Ty(ty))) => {
            reader.advance();
            Ok(ty)
        }
        Some(Terminal::Word(Word::RefusedType)) => Err(Stop::Unsupported),
        _ => Err(Stop::Syntax),
    }
}

/// `.T`
#[tactic(auto, unfolding(crate::specs::Types::suffix_at))]
pub fn read_suffix(reader: &mut Reader<'_>) -> Result<Ty, Stop>
    ensures is { Gives same reader.new result (spec.suffix_at reader.old) }
    ensures no_memory { IfErr result (λ e. e ≢ NoMemory) }
    ensures shorter { IfOk result (λ _. length reader.new < length reader.old) }
{
    reader.take(Class::Dot)?;
    read_type(reader)
}

/// `[.T]`
#[tactic(auto, unfolding(crate::specs::Types::opt_suffix_at))]
pub fn read_opt_suffix(reader: &mut Reader<'_>) -> Result<Option<Ty>, Stop>
    ensures is { Gives same reader.new result (spec.opt_suffix_at reader.old) }
    ensures no_memory { IfErr result (λ e. e ≢ NoMemory) }
    ensures shorter { IfOk result (λ _. length reader.new ≤ length reader.old) }
{
    if reader.next_is(Class::Dot) {
        Ok(Some(read_suffix(reader)?))
    } else {
        Ok(None)
    }
}

/// `i64`, and no other type.
#[tactic(auto, unfolding(crate::specs::Types::i64_at))]
pub fn read_i64(reader: &mut Reader<'_>) -> Result<RawName, Stop>
    ensures is { Gives same reader.new result (spec.i64_at reader.old) }
    ensures no_memory { IfErr result (λ e. e ≢ NoMemory) }
    ensures shorter { IfOk result (λ _. length reader.new < length reader.old) }
{
    if reader.next_is(Class::TyI64) {
        reader.take(Class::TyI64)
    } else {
        Err(if reader.next_is(Class::RefusedType) {
            Stop::Unsupported
        } else {
            Stop::Syntax
        })
    }
}

/// `.i64`
#[tactic(auto, unfolding(crate::specs::Types::suffix_i64_at))]
pub fn read_i64_suffix(reader: &mut Reader<'_>) -> Result<RawName, Stop>
    ensures is { Gives same reader.new result (spec.suffix_i64_at reader.old) }
    ensures no_memory { IfErr result (λ e. e ≢ NoMemory) }
    ensures shorter { IfOk result (λ _. length reader.new < length reader.old) }
{
    reader.take(Class::Dot)?;
    read_i64(reader)
}

/// `[.i64]`
#[tactic(auto, unfolding(crate::specs::Types::opt_suffix_i64_at))]
pub fn read_opt_i64_suffix(reader: &mut Reader<'_>) -> Result<Option<RawName>, Stop>
    ensures is { Gives same reader.new result (spec.opt_suffix_i64_at reader.old) }
    ensures no_memory { IfErr result (λ e. e ≢ NoMemory) }
    ensures shorter { IfOk result (λ _. length reader.new ≤ length reader.old) }
{
    if reader.next_is(Class::Dot) {
        Ok(Some(read_i64_suffix(reader)?))
    } else {
        Ok(None)
    }
}
