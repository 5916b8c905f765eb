//! What a reply does.

ghost use Rattle.std.specs.Prelude.{◌≡◌, ◌<◌, length, IfOk};
ghost use Rattle.token_reader.specs.Reading.{Gives, same};
ghost use Rattle.host_script.specs.Script.{act_of};
ghost use Rattle.script_text.specs.Reading as spec;
ghost use Rattle.script_text.specs.Values.{trap_of};

use crate::reader::Reader;
use crate::terminal::Terminal;
use crate::values::{read_payload, read_returned};
use clk_num::TrapCode;
use host_script::Act;
use ir_core::List;
use std::alloc::Global;
use token_reader::Stop;

/// A trap code but `userN`, by its place among them.
fn find_trap_code(number: u64) -> TrapCode
    ensures { result ≡ trap_of number }
{
    match number {
        0 => TrapCode::StkOvf,
        1 => TrapCode::IntOvf,
        2 => TrapCode::HeapOob,
        3 => TrapCode::IntDivz,
        _ => TrapCode::BadToint,
    }
}

#[tactic(auto, unfolding(crate::specs::Reading::trap_code_at))]
fn read_trap_code(reader: &mut Reader<'_>) -> Result<TrapCode, Stop>
    ensures is { Gives same reader.new result (spec.trap_code_at reader.old) }
    ensures shorter { IfOk result (λ _. length reader.new < length reader.old) }
{
    if reader.next_is(Terminal::TrapCode) {
        let code = reader.take(Terminal::TrapCode)?;
        Ok(find_trap_code(code.number))
    } else {
        let user = reader.take(Terminal::UserTrap)?;
        Ok(TrapCode::User(user.number as u16))
    }
}

/// `return(1, -2)`, or `return` alone.
#[tactic(auto, unfolding(crate::specs::Reading::returns_at))]
fn read_returns(alloc: Global, reader: &mut Reader<'_>) -> Result<Act, Stop>
    ensures is { Gives act_of reader.new result (spec.returns_at reader.old) }
    ensures shorter { IfOk result (λ _. length reader.new < length reader.old) }
{
    reader.take(Terminal::Return)?;
    let values = read_returned(alloc, reader)?;
    Ok(Act::Return(List::from_vec(values)))
}

/// `trap int_divz`.
#[tactic(auto, unfolding(crate::specs::Reading::traps_at))]
fn read_traps(reader: &mut Reader<'_>) -> Result<Act, Stop>
    ensures is { Gives act_of reader.new result (spec.traps_at reader.old) }
    ensures shorter { IfOk result (λ _. length reader.new < length reader.old) }
{
    reader.take(Terminal::Trap)?;
    let code = read_trap_code(reader)?;
    Ok(Act::Trap(code))
}

/// `throw tag3(7, 8)`.
#[tactic(auto, unfolding(crate::specs::Reading::throws_at))]
fn read_throws(reader: &mut Reader<'_>) -> Result<Act, Stop>
    ensures is { Gives act_of reader.new result (spec.throws_at reader.old) }
    ensures shorter { IfOk result (λ _. length reader.new < length reader.old) }
{
    reader.take(Terminal::Throw)?;
    let tag = reader.take(Terminal::Tag)?;
    reader.take(Terminal::LeftParen)?;
    let p0 = read_payload(reader)?;
    reader.take(Terminal::Comma)?;
    let p1 = read_payload(reader)?;
    reader.take(Terminal::RightParen)?;
    Ok(Act::Throw {
        tag: tag.number as u32,
        p0,
        p1,
    })
}

/// What a reply does.
#[tactic(auto, unfolding(crate::specs::Reading::act_at))]
pub(crate) fn read_act(alloc: Global, reader: &mut Reader<'_>) -> Result<Act, Stop>
    ensures is { Gives act_of reader.new result (spec.act_at reader.old) }
    ensures shorter { IfOk result (λ _. length reader.new < length reader.old) }
{
    if reader.next_is(Terminal::Return) {
        read_returns(alloc, reader)
    } else if reader.next_is(Terminal::Trap) {
        read_traps(reader)
    } else {
        read_throws(reader)
    }
}
