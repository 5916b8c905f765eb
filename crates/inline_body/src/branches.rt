//! Copies of branches and `try_call`s of a callee. Each is a function of its own: in `copy_inst` the prover would
//! look at what is let go at each want of memory in all of its arms.
ghost use Rattle.std.specs.Prelude.{◌≡◌, ◌+◌, ◌<◌, ◌^◌, length, map, IfOk};
ghost use Rattle.ir_core.specs.Lists.{Each, Below};
ghost use Rattle.ir_core.specs.Uses.{arg_values_used, targets_used, table_targets};
ghost use Rattle.ir_core.specs.declared.instructions.Inst.TheVariants.{Brif, BrTable, TryCall, TryCallIndirect};
ghost use Rattle.ir_semantics.specs.Renaming.{target_under, entry_under};
ghost use Rattle.inline_body.specs.Named.{names_of, Moves, blocks_of};

use crate::names::Names;
use exn_tables::Table;
use ir_core::{BlockCall, Boxed, FuncRef, Inst, List, SigRef, Value, Values};
use std::alloc::{AllocError, Global};

/// A `brif` under its numbers.
pub(crate) fn copy_brif(
    alloc: Global,
    names: &Names,
    cond: Value,
    yes: &Boxed<BlockCall>,
    no: &Boxed<BlockCall>,
) -> Result<Inst, AllocError>
    requires cond { names.now.values + cond < 2 ^ 32 }
    requires yes { Each (Moves names.now.values) (arg_values_used yes.now.args) }
    requires yes_block { yes.now.block < length names.now.blocks }
    requires no { Each (Moves names.now.values) (arg_values_used no.now.args) }
    requires no_block { no.now.block < length names.now.blocks }
    ensures { IfOk result (λ i. i ≡ Brif ((names_of names.now).value cond) (target_under (names_of names.now) yes.now)
        (target_under (names_of names.now) no.now)) }
{
    Ok(Inst::Brif {
        cond: names.value(cond),
        yes: names.boxed(alloc, yes)?,
        no: names.boxed(alloc, no)?,
    })
}

/// A `br_table` under its numbers.
pub(crate) fn copy_br_table(
    alloc: Global,
    names: &Names,
    index: Value,
    default: &Boxed<BlockCall>,
    entries: &List<BlockCall>,
) -> Result<Inst, AllocError>
    requires index { names.now.values + index < 2 ^ 32 }
    requires default { Each (Moves names.now.values) (arg_values_used default.now.args) }
    requires default_block { default.now.block < length names.now.blocks }
    requires entries { Each (Moves names.now.values) (targets_used entries.now) }
    requires entry_blocks { Below (length names.now.blocks) (blocks_of entries.now) }
    ensures { IfOk result (λ i. i ≡ BrTable ((names_of names.now).value index)
        (target_under (names_of names.now) default.now) (map (target_under (names_of names.now)) entries.now)) }
{
    Ok(Inst::BrTable {
        index: names.value(index),
        default: names.boxed(alloc, default)?,
        entries: names.targets(alloc, entries.as_slice())?,
    })
}

/// A direct `try_call` under its numbers.
pub(crate) fn copy_try_call(
    alloc: Global,
    names: &Names,
    callee: FuncRef,
    sig: SigRef,
    args: &Values,
    normal: &Boxed<BlockCall>,
    table: &Boxed<Table<BlockCall>>,
) -> Result<Inst, AllocError>
    requires callee { callee < length names.now.callees }
    requires sig { sig < length names.now.sigs }
    requires args { Each (Moves names.now.values) args.now }
    requires normal { Each (Moves names.now.values) (arg_values_used normal.now.args) }
    requires normal_block { normal.now.block < length names.now.blocks }
    requires table { Each (Moves names.now.values) (targets_used (table_targets table.now)) }
    requires table_blocks { Below (length names.now.blocks) (blocks_of (table_targets table.now)) }
    ensures { IfOk result (λ i. i ≡ TryCall ((names_of names.now).callee callee) ((names_of names.now).sig sig)
        (map (names_of names.now).value args.now) (target_under (names_of names.now) normal.now)
        (map (entry_under (names_of names.now)) table.now)) }
{
    Ok(Inst::TryCall {
        callee: names.callee(callee),
        sig: names.sig(sig),
        args: names.of_values(alloc, args)?,
        normal: names.boxed(alloc, normal)?,
        table: names.table(alloc, table)?,
    })
}

/// An indirect `try_call` under its numbers.
pub(crate) fn copy_try_call_indirect(
    alloc: Global,
    names: &Names,
    sig: SigRef,
    address: Value,
    args: &Values,
    normal: &Boxed<BlockCall>,
    table: &Boxed<Table<BlockCall>>,
) -> Result<Inst, AllocError>
    requires sig { sig < length names.now.sigs }
    requires address { names.now.values + address < 2 ^ 32 }
    requires args { Each (Moves names.now.values) args.now }
    requires normal { Each (Moves names.now.values) (arg_values_used normal.now.args) }
    requires normal_block { normal.now.block < length names.now.blocks }
    requires table { Each (Moves names.now.values) (targets_used (table_targets table.now)) }
    requires table_blocks { Below (length names.now.blocks) (blocks_of (table_targets table.now)) }
    ensures { IfOk result (λ i. i ≡ TryCallIndirect ((names_of names.now).sig sig) ((names_of names.now).value address)
        (map (names_of names.now).value args.now) (target_under (names_of names.now) normal.now)
        (map (entry_under (names_of names.now)) table.now)) }
{
    Ok(Inst::TryCallIndirect {
        sig: names.sig(sig),
        address: names.value(address),
        args: names.of_values(alloc, args)?,
        normal: names.boxed(alloc, normal)?,
        table: names.table(alloc, table)?,
    })
}
