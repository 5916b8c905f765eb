//! Values, targets, tables, flags and tags under the numbers of their words.
ghost use Rattle.std.specs.Prelude.{◌≡◌, flat_map, map, IfOk};
ghost use Rattle.ir_core.specs.Lists.{Each};
ghost use Rattle.clif_names.specs.Limits.{arg_limits, entry_limits, tag_limits, target_limits};
ghost use Rattle.clif_lines.specs.WordRenaming.{renaming};
ghost use Rattle.clif_lines.specs.Keeping.{AllKeep};
ghost use Rattle.clif_meaning.specs.Instructions as spec;

use crate::narrowing::{entity_number, word_number};
use crate::words::WordNumbers;
use clif_insts::{RawArg, RawEntry, RawFlag, RawTarget};
use clif_read::RawTag;
use debug_tags::{Tag, Tags};
use exn_tables::{Entry, Table};
use ir_core::{Arg, BlockCall, Few, Flags, List, Values};
use std::alloc::{AllocError, Global};
use token_reader::RawName;

/// The values of words. Up to two take no memory but the list's own.
pub fn values(
    alloc: Global,
    words: &WordNumbers<'_>,
    names: &[RawName],
) -> Result<Values, AllocError>
    ensures { IfOk result (λ list. list ≡ spec.values_at (renaming words.now) names.now) }
{
    match names {
        [] => Ok(Values::none()),
        [name] => Ok(Values::one(words.value(*name))),
        [first, second] => Ok(Values::two(words.value(*first), words.value(*second))),
        _ => many_values(alloc, words, names),
    }
}

/// The values of words, of however many.
fn many_values(
    alloc: Global,
    words: &WordNumbers<'_>,
    names: &[RawName],
) -> Result<Values, AllocError>
    ensures { IfOk result (λ list. list ≡ spec.values_at (renaming words.now) names.now) }
{
    let mut list = Vec::with_capacity(alloc, names.len())?;
    for name in names {
        list.push(words.value(*name))?;
    }
    Values::from_slice(alloc, list.as_slice())
}

/// An argument of a target.
fn arg(words: &WordNumbers<'_>, written: RawArg) -> Arg
    requires { AllKeep (arg_limits written) }
    ensures { result ≡ spec.arg_of (renaming words.now) written }
{
    match written {
        RawArg::Value(name) => Arg::Value(words.value(name)),
        RawArg::Ret(name) => Arg::Ret(word_number(name)),
        RawArg::Exn(name) => Arg::Exn(word_number(name)),
    }
}

/// The arguments of a target.
fn args(alloc: Global, words: &WordNumbers<'_>, written: &[RawArg]) -> Result<Few<Arg>, AllocError>
    requires { AllKeep (flat_map arg_limits written.now) }
    ensures { IfOk result (λ list. list ≡ map (spec.arg_of (renaming words.now)) written.now) }
{
    match written {
        [one] => Ok(Few::one(arg(words, *one))),
        _ => many_args(alloc, words, written),
    }
}

/// The arguments of a target, of however many.
#[tactic(auto, using(name_tables::proofs::Folds::map_more))]
fn many_args(
    alloc: Global,
    words: &WordNumbers<'_>,
    written: &[RawArg],
) -> Result<Few<Arg>, AllocError>
    requires { AllKeep (flat_map arg_limits written.now) }
    ensures { IfOk result (λ list. list ≡ map (spec.arg_of (renaming words.now)) written.now) }
{
    let mut list = Vec::with_capacity(alloc, written.len())?;
    for item in written {
        list.push(arg(words, *item))?;
    }
    Ok(Few::from_vec(list))
}

/// A target.
pub fn target(
    alloc: Global,
    words: &WordNumbers<'_>,
    written: &RawTarget,
) -> Result<BlockCall, AllocError>
    requires { AllKeep (target_limits written.now) }
    ensures { IfOk result (λ call. call ≡ spec.target_of (renaming words.now) written.now) }
{
    Ok(BlockCall {
        block: words.block(written.block),
        args: args(alloc, words, written.args.as_slice())?,
    })
}

/// The targets of a `br_table`.
#[tactic(auto, using(name_tables::proofs::Folds::map_more))]
pub fn targets(
    alloc: Global,
    words: &WordNumbers<'_>,
    written: &[RawTarget],
) -> Result<List<BlockCall>, AllocError>
    requires { Each (λ t. AllKeep (target_limits t)) written.now }
    ensures { IfOk result (λ list. list ≡ map (spec.target_of (renaming words.now)) written.now) }
{
    let mut list = Vec::with_capacity(alloc, written.len())?;
    for item in written {
        list.push(target(alloc, words, item)?)?;
    }
    Ok(List::from_vec(list))
}

/// An entry of an exception table.
fn entry(
    alloc: Global,
    words: &WordNumbers<'_>,
    written: &RawEntry,
) -> Result<Entry<BlockCall>, AllocError>
    requires tag { AllKeep (entry_limits written.now) }
    requires target { AllKeep (target_limits written.now.target) }
    ensures { IfOk result (λ entry. entry ≡ spec.entry_of (renaming words.now) written.now) }
{
    let tag = match written.tag {
        None => None,
        Some(name) => Some(word_number(name)),
    };
    Ok(Entry {
        tag,
        target: target(alloc, words, &written.target)?,
    })
}

/// An exception table.
#[tactic(auto, using(name_tables::proofs::Folds::map_more))]
pub fn table(
    alloc: Global,
    words: &WordNumbers<'_>,
    written: &[RawEntry],
) -> Result<Table<BlockCall>, AllocError>
    requires tags { AllKeep (flat_map entry_limits written.now) }
    requires targets { Each (λ t. AllKeep (target_limits t)) (map (λ e. e.target) written.now) }
    ensures { IfOk result (λ table. table ≡ map (spec.entry_of (renaming words.now)) written.now) }
{
    let mut list = Vec::with_capacity(alloc, written.len())?;
    for item in written {
        list.push(entry(alloc, words, item)?)?;
    }
    Ok(Table::new(list))
}

/// The flags with one more word among them.
fn with_flag(flags: Flags, flag: RawFlag) -> Flags
    ensures { result ≡ spec.with_flag flags flag }
{
    match flag {
        RawFlag::Notrap => Flags {
            notrap: true,
            ..flags
        },
        RawFlag::Aligned => Flags {
            aligned: true,
            ..flags
        },
        RawFlag::Readonly => Flags {
            readonly: true,
            ..flags
        },
        RawFlag::CanMove => Flags {
            can_move: true,
            ..flags
        },
        RawFlag::Heap => Flags {
            heap: true,
            ..flags
        },
        RawFlag::Table => Flags {
            table: true,
            ..flags
        },
        RawFlag::Vmctx => Flags {
            vmctx: true,
            ..flags
        },
        RawFlag::Little => Flags {
            little: true,
            ..flags
        },
        RawFlag::Big => Flags { big: true, ..flags },
    }
}

/// The flags of an access.
#[tactic(auto, using(name_tables::proofs::Folds::fold_one))]
pub fn flags(written: &[RawFlag]) -> Flags
    ensures { result ≡ spec.flags_of written.now }
{
    let mut flags = Flags {
        notrap: false,
        aligned: false,
        readonly: false,
        can_move: false,
        little: false,
        big: false,
        heap: false,
        table: false,
        vmctx: false,
    };
    for flag in written {
        flags = with_flag(flags, *flag);
    }
    flags
}

/// A debug tag.
fn tag(words: &WordNumbers<'_>, written: RawTag) -> Tag
    requires { AllKeep (tag_limits written) }
    ensures { result ≡ spec.tag_of (renaming words.now) written }
{
    match written {
        RawTag::User(number) => Tag::User(entity_number(number)),
        RawTag::Slot(name) => Tag::Slot(words.slot(name).number()),
    }
}

/// The debug tags of an instruction.
#[tactic(auto, using(name_tables::proofs::Folds::map_more))]
pub fn tags(alloc: Global, words: &WordNumbers<'_>, written: &[RawTag]) -> Result<Tags, AllocError>
    requires { AllKeep (flat_map tag_limits written.now) }
    ensures { IfOk result (λ list. list ≡ map (spec.tag_of (renaming words.now)) written.now) }
{
    let mut list = Vec::with_capacity(alloc, written.len())?;
    for item in written {
        list.push(tag(words, *item))?;
    }
    Ok(Tags::new(list))
}
