//! Conditions and trap codes.

ghost use Rattle.std.specs.Prelude.{◌≡◌, ◌≢◌, ◌<◌, length, IfOk, IfErr};
ghost use Rattle.token_reader.specs.declared.stop.Stop.TheVariants.{NoMemory};
ghost use Rattle.token_reader.specs.Reading.{Gives, same};
ghost use Rattle.clif_insts.specs.Codes as spec;
ghost use Rattle.clif_insts.specs.Grammar.{any_trap};
ghost use Rattle.token_reader.specs.Values.{seen};
ghost use Rattle.clif_insts.specs.Values.{condition_value, trap_value};
ghost use Rattle.clif_words.specs.Seen.{trap_place};
ghost use Rattle.clif_words.specs.Terminals as words;
ghost use Rattle.grammar.specs.Rules.{read};

use crate::raw::RawTrap;
use clif_words::{Class, NamedTrap, Terminal, Word};
use clk_num::Cc;
use token_reader::{Reader, Stop};

/// A condition.
pub(crate) fn read_condition(reader: &mut Reader<'_>) -> Result<Cc, Stop>
    ensures is { Gives same reader.new result (seen condition_value (read words.condition reader.old)) }
    ensures no_memory { IfErr result (λ e. e ≢ NoMemory) }
    ensures shorter { IfOk result (λ _. length reader.new < length reader.old) }
{
    match reader.next_terminal() {
        Some(Terminal::Word(Word::Condition(condition))) => {
            reader.advance();
            Ok(condition)
        }
        _ => Err(Stop::Syntax),
    }
}

/// What a trap code but `userN` is in an instruction.
fn to_raw_trap(code: NamedTrap) -> RawTrap
    ensures { result ≡ spec.trap_of (trap_place code) }
{
    match code {
        NamedTrap::StkOvf => RawTrap::StkOvf,
        NamedTrap::IntOvf => RawTrap::IntOvf,
        NamedTrap::HeapOob => RawTrap::HeapOob,
        NamedTrap::IntDivz => RawTrap::IntDivz,
        NamedTrap::BadToint => RawTrap::BadToint,
    }
}

/// A trap code.
#[tactic(auto, unfolding(token_reader::specs::Reading::name_at))]
pub(crate) fn read_trap_code(reader: &mut Reader<'_>) -> Result<RawTrap, Stop>
    ensures is { Gives same reader.new result (seen trap_value (read any_trap reader.old)) }
    ensures no_memory { IfErr result (λ e. e ≢ NoMemory) }
    ensures shorter { IfOk result (λ _. length reader.new < length reader.old) }
{
    match reader.next_terminal() {
        Some(Terminal::Word(Word::TrapCode(code))) => {
            reader.advance();
            Ok(to_raw_trap(code))
        }
        _ => Ok(RawTrap::User(reader.take(Class::UserTrap)?)),
    }
}
