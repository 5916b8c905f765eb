//! Flags of a memory access.

ghost use Rattle.std.specs.Prelude.{◌≡◌, ◌≢◌, ◌∷◌, [], ◌++◌, ◌<◌, ◌≤◌, length, IfOk, IfErr};
ghost use Rattle.grammar.specs.Rules.{heads};
ghost use Rattle.clif_words.specs.Classes.{code};
ghost use Rattle.clif_words.specs.Seen.{flag_place};
ghost use Rattle.clif_words.specs.Terminals.{codes_of};
ghost use Rattle.token_reader.specs.declared.stop.Stop.TheVariants.{NoMemory};
ghost use Rattle.token_reader.specs.Reading.{Gives, same};
ghost use Rattle.clif_insts.specs.Flags as spec;

use crate::raw::RawFlag;
use clif_words::{Class, Entity, Flag, Terminal, Word};
use std::alloc::Global;
use token_reader::{Reader, Stop};

/// The order of bytes that a flag gives.
#[derive(Clone, Copy)]
pub(crate) enum Order {
    Little,
    Big,
}

impl Order {
    /// The class of its word.
    fn class(self) -> Class
        ensures { result ≡ spec.order_class self }
    {
        match self {
            Order::Little => Class::Little,
            Order::Big => Class::Big,
        }
    }

    /// The flag that its word is.
    fn flag(self) -> RawFlag
        ensures { result ≡ spec.order_flag self }
    {
        match self {
            Order::Little => RawFlag::Little,
            Order::Big => RawFlag::Big,
        }
    }
}

/// What a flag but `little`, `big` and `vmctx` is in an instruction.
fn to_raw_flag(flag: Flag) -> RawFlag
    ensures { result ≡ spec.flag_of (flag_place flag) }
{
    match flag {
        Flag::Notrap => RawFlag::Notrap,
        Flag::Aligned => RawFlag::Aligned,
        Flag::Readonly => RawFlag::Readonly,
        Flag::CanMove => RawFlag::CanMove,
        Flag::Heap => RawFlag::Heap,
        Flag::Table => RawFlag::Table,
    }
}

/// Whether a flag but `little` and `big` may be read here, or refused.
fn begins_plain_flag(reader: &Reader<'_>) -> bool
    ensures { result ≡ heads (codes_of spec.begins_plain_flag) reader.now }
{
    reader.next_is(Class::Flag)
        || reader.next_is_one_of(Class::Vmctx, Class::TrapCode, Class::UserTrap)
}

/// A flag but `little` and `big`.
#[tactic(auto, unfolding(crate::specs::Flags::plain_flag_at, token_reader::specs::Reading::name_at))]
pub(crate) fn read_plain_flag(reader: &mut Reader<'_>) -> Result<RawFlag, Stop>
    ensures is { Gives same reader.new result (spec.plain_flag_at reader.old) }
    ensures no_memory { IfErr result (λ e. e ≢ NoMemory) }
    ensures shorter { IfOk result (λ _. length reader.new < length reader.old) }
{
    match reader.next_terminal() {
        Some(Terminal::Word(Word::Flag(flag))) => {
            reader.advance();
            Ok(to_raw_flag(flag))
        }
        Some(Terminal::Word(Word::Vmctx)) => {
            reader.advance();
            Ok(RawFlag::Vmctx)
        }
        Some(Terminal::Word(Word::TrapCode(_) | Word::Entity(Entity::UserTrap, _))) => {
            Err(Stop::Unsupported)
        }
        _ => Err(Stop::Syntax),
    }
}

/// Flags but `little` and `big`.
fn read_plain_flags(alloc: Global, reader: &mut Reader<'_>) -> Result<Vec<RawFlag>, Stop>
    ensures is { Gives (λ x. x.items) reader.new result (spec.plain_flags_at reader.old) }
    ensures shorter { IfOk result (λ _. length reader.new ≤ length reader.old) }
{
    let mut list = Vec::new(alloc);
    'list: while begins_plain_flag(reader) {
        let item = read_plain_flag(reader)?;
        list.push(item)?;
    }
    Ok(list)
}

/// Whether a flag begins here, or a word that is refused in its place. Of `little` and `big` it may be this one alone.
fn begins_ordered_flag(reader: &Reader<'_>, order: Order) -> bool
    ensures { result ≡ heads (codes_of spec.begins_plain_flag ++ code (spec.order_class order) ∷ []) reader.now }
{
    begins_plain_flag(reader) || reader.next_is(order.class())
}

#[tactic(auto, unfolding(crate::specs::Flags::ordered_flag_at))]
pub(crate) fn read_ordered_flag(reader: &mut Reader<'_>, order: Order) -> Result<RawFlag, Stop>
    ensures is { Gives same reader.new result (spec.ordered_flag_at order reader.old) }
    ensures no_memory { IfErr result (λ e. e ≢ NoMemory) }
    ensures shorter { IfOk result (λ _. length reader.new < length reader.old) }
{
    if begins_plain_flag(reader) {
        read_plain_flag(reader)
    } else {
        reader.take(order.class())?;
        Ok(order.flag())
    }
}

/// Flags, with `little` or `big` among them.
fn read_ordered_flags(
    reader: &mut Reader<'_>,
    order: Order,
    front: Vec<RawFlag>,
) -> Result<Vec<RawFlag>, Stop>
    ensures is { Gives (λ x. x.items) reader.new result (spec.ordered_flags_at order front.items reader.old) }
    ensures shorter { IfOk result (λ _. length reader.new ≤ length reader.old) }
{
    let mut list = front;
    'list: while begins_ordered_flag(reader, order) {
        let item = read_ordered_flag(reader, order)?;
        list.push(item)?;
    }
    Ok(list)
}

/// Flags.
#[tactic(auto, unfolding(crate::specs::Flags::flags_at))]
pub(crate) fn read_flags(alloc: Global, reader: &mut Reader<'_>) -> Result<Vec<RawFlag>, Stop>
    ensures is { Gives (λ x. x.items) reader.new result (spec.flags_at reader.old) }
    ensures shorter { IfOk result (λ _. length reader.new ≤ length reader.old) }
{
    let list = read_plain_flags(alloc, reader)?;
    if reader.next_is(Class::Big) {
        read_ordered_flags(reader, Order::Big, list)
    } else if reader.next_is(Class::Little) {
        read_ordered_flags(reader, Order::Little, list)
    } else {
        Ok(list)
    }
}
