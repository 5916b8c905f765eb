//! Targets of branches.

ghost use Rattle.std.specs.Prelude.{◌≡◌, ◌≢◌, ◌<◌, ◌≤◌, length, IfOk, IfErr};
ghost use Rattle.token_reader.specs.declared.stop.Stop.TheVariants.{NoMemory};
ghost use Rattle.clif_insts.specs.declared.targets.TargetRole.TheVariants.{Branch};
ghost use Rattle.token_reader.specs.Reading.{Gives, same};
ghost use Rattle.clif_insts.specs.Targets as spec;

use crate::raw::{RawArg, RawTarget};
use clif_words::Class;
use ir_core::{Boxed, Few};
use std::alloc::Global;
use token_reader::{Items, Reader, Stop, read_few_items, read_items};

/// Where a target stands: at a branch, as the normal target of a `try_call`, or in its table.
/// `retN` stands only in the second, `exnN` only in the third.
#[derive(Clone, Copy, PartialEq, Eq)]
pub enum TargetRole {
    Branch,
    Normal,
    Handler,
}

/// An argument of a target.
#[tactic(auto, unfolding(crate::specs::Targets::arg_at))]
#[inline(always)]
pub(crate) fn read_arg(reader: &mut Reader<'_>, role: TargetRole) -> Result<RawArg, Stop>
    ensures is { Gives same reader.new result (spec.arg_at role reader.old) }
    ensures no_memory { IfErr result (λ e. e ≢ NoMemory) }
    ensures shorter { IfOk result (λ _. length reader.new < length reader.old) }
{
    match role {
        TargetRole::Branch => Ok(RawArg::Value(reader.take(Class::Value)?)),
        TargetRole::Normal => {
            if reader.next_is(Class::Value) {
                Ok(RawArg::Value(reader.take(Class::Value)?))
            } else {
                Ok(RawArg::Ret(reader.take(Class::Ret)?))
            }
        }
        TargetRole::Handler => {
            if reader.next_is(Class::Value) {
                Ok(RawArg::Value(reader.take(Class::Value)?))
            } else {
                Ok(RawArg::Exn(reader.take(Class::Exn)?))
            }
        }
    }
}

impl Items<RawArg> for TargetRole {
    ghost item_at = { spec.arg_at };

    #[inline(always)]
    fn read_item(&self, _alloc: Global, reader: &mut Reader<'_>) -> Result<RawArg, Stop> {
        read_arg(reader, *self)
    }
}

/// Whether an argument begins here.
fn begins_arg(reader: &Reader<'_>, role: TargetRole) -> bool
    ensures { result ≡ spec.begins_arg role reader.now }
{
    match role {
        TargetRole::Branch => reader.next_is(Class::Value),
        TargetRole::Normal => reader.next_is_either(Class::Value, Class::Ret),
        TargetRole::Handler => reader.next_is_either(Class::Value, Class::Exn),
    }
}

#[tactic(auto, unfolding(crate::specs::Targets::target_args_at))]
pub(crate) fn read_target_args(
    alloc: Global,
    reader: &mut Reader<'_>,
    role: TargetRole,
) -> Result<Few<RawArg>, Stop>
    ensures is { Gives same reader.new result (spec.target_args_at role reader.old) }
    ensures shorter { IfOk result (λ _. length reader.new < length reader.old) }
{
    reader.take(Class::LeftParen)?;
    let list = if begins_arg(reader, role) {
        read_few_items(alloc, reader, &role)?
    } else {
        Few::from_vec(Vec::new(alloc))
    };
    reader.take(Class::RightParen)?;
    Ok(list)
}

#[tactic(auto, unfolding(crate::specs::Targets::opt_target_args_at))]
pub(crate) fn read_opt_target_args(
    alloc: Global,
    reader: &mut Reader<'_>,
    role: TargetRole,
) -> Result<Few<RawArg>, Stop>
    ensures is { Gives same reader.new result (spec.opt_target_args_at role reader.old) }
    ensures shorter { IfOk result (λ _. length reader.new ≤ length reader.old) }
{
    if reader.next_is(Class::LeftParen) {
        read_target_args(alloc, reader, role)
    } else {
        Ok(Few::from_vec(Vec::new(alloc)))
    }
}

/// A target.
#[tactic(auto, unfolding(crate::specs::Targets::target_at))]
pub(crate) fn read_target(
    alloc: Global,
    reader: &mut Reader<'_>,
    role: TargetRole,
) -> Result<RawTarget, Stop>
    ensures is { Gives same reader.new result (spec.target_at role reader.old) }
    ensures shorter { IfOk result (λ _. length reader.new < length reader.old) }
{
    let block = reader.take(Class::Block)?;
    let args = read_opt_target_args(alloc, reader, role)?;
    Ok(RawTarget { block, args })
}

/// A target behind a pointer: so an instruction is no larger for it.
pub(crate) fn read_boxed_target(
    alloc: Global,
    reader: &mut Reader<'_>,
    role: TargetRole,
) -> Result<Boxed<RawTarget>, Stop>
    ensures is { Gives same reader.new result (spec.target_at role reader.old) }
    ensures shorter { IfOk result (λ _. length reader.new < length reader.old) }
{
    let target = read_target(alloc, reader, role)?;
    Ok(Boxed::new(alloc, target)?)
}

/// The targets of a `br_table`.
struct TargetItems;

impl Items<RawTarget> for TargetItems {
    ghost item_at = { λ _. spec.target_at Branch };

    #[inline]
    fn read_item(&self, alloc: Global, reader: &mut Reader<'_>) -> Result<RawTarget, Stop> {
        read_target(alloc, reader, TargetRole::Branch)
    }
}

#[tactic(auto, unfolding(crate::specs::Targets::target_list_at))]
pub(crate) fn read_target_list(
    alloc: Global,
    reader: &mut Reader<'_>,
) -> Result<Vec<RawTarget>, Stop>
    ensures is { Gives (λ x. x.items) reader.new result (spec.target_list_at reader.old) }
    ensures shorter { IfOk result (λ _. length reader.new < length reader.old) }
{
    reader.take(Class::LeftBracket)?;
    let list = if reader.next_is(Class::Block) {
        read_items(alloc, reader, &TargetItems)?
    } else {
        Vec::new(alloc)
    };
    reader.take(Class::RightBracket)?;
    Ok(list)
}
