//! What is looked up of the signatures of each function.
ghost use Rattle.std.specs.Prelude.{◌≡◌, ◌≤◌, Some, length, map, IfOk, OnOk};
ghost use Rattle.sig_numbers.specs.Index.{IsIndex, Keeps, number_of};
ghost use Rattle.sig_numbers.specs.Tables.{AreTables, Entered, IsTable, return_alike};

use crate::index::SigIndex;
use crate::types::have_same_types;
use ir_core::{Func, Module, Sig};
use std::alloc::{AllocError, Global};

/// What is looked up of a signature that a function declares.
#[derive(Drop)]
pub(crate) struct SigEntry {
    pub(crate) number: usize,
    /// Whether its results have the types of the function's.
    pub(crate) returns_alike: bool,
}

/// What is looked up of a function's signatures.
#[derive(Drop)]
pub(crate) struct SigTable {
    /// The number of its own.
    pub(crate) own: usize,
    /// An entry for each that it declares.
    pub(crate) entries: Vec<SigEntry>,
}

/// The entries of signatures that a function declares whose own is `own`. Only `AllocError` refuses.
fn find_entries<'a>(
    alloc: Global,
    index: &mut SigIndex<'a>,
    own: &Sig,
    sigs: &'a [Sig],
) -> Result<Vec<SigEntry>, AllocError>
    requires { IsIndex index.old }
    ensures index { OnOk result (IsIndex index.new) }
    ensures keeps { OnOk result (Keeps index.old index.new) }
    ensures numbers { IfOk result
        (λ entries. map Some (map (λ e. e.number) entries.items) ≡ map (number_of index.new) sigs.now) }
    ensures flags { IfOk result
        (λ entries. map (λ e. e.returns_alike) entries.items ≡ map (return_alike own.now) sigs.now) }
{
    let mut entries = Vec::with_capacity(alloc, sigs.len())?;
    for sig in sigs {
        let number = index.number(alloc, sig)?;
        let returns_alike = have_same_types(sig.results.as_slice(), own.results.as_slice());
        entries.push(SigEntry {
            number,
            returns_alike,
        })?;
    }
    Ok(entries)
}

/// The entries of a function that declares one signature at most, whose number is 0. Only `AllocError` refuses.
fn find_few_entries(alloc: Global, func: &Func) -> Result<Vec<SigEntry>, AllocError>
    requires { length func.now.function.sigs ≤ 1 }
    ensures { IfOk result (λ entries. Entered func.now.function entries.items) }
{
    let Some(sig) = func.sigs().first() else {
        return Ok(Vec::new(alloc));
    };
    let returns_alike = have_same_types(sig.results.as_slice(), func.sig().results.as_slice());
    let mut entries = Vec::with_capacity(alloc, 1)?;
    entries.push(SigEntry {
        number: 0,
        returns_alike,
    })?;
    Ok(entries)
}

/// The entries of a function whose signatures are numbered alone. Only `AllocError` refuses.
pub(crate) fn find_own_entries(alloc: Global, func: &Func) -> Result<Vec<SigEntry>, AllocError>
    ensures { IfOk result (λ entries. Entered func.now.function entries.items) }
{
    let sigs = func.sigs();
    if sigs.len() <= 1 {
        return find_few_entries(alloc, func);
    }
    let mut index = SigIndex::new(alloc);
    let entries = find_entries(alloc, &mut index, func.sig(), sigs)?;
    Ok(entries)
}

/// The table of a function. Only `AllocError` refuses.
fn find_table<'a>(
    alloc: Global,
    index: &mut SigIndex<'a>,
    func: &'a Func,
) -> Result<SigTable, AllocError>
    requires { IsIndex index.old }
    ensures index { OnOk result (IsIndex index.new) }
    ensures keeps { OnOk result (Keeps index.old index.new) }
    ensures table { IfOk result (IsTable (number_of index.new) func.now.function) }
{
    let own = index.number(alloc, func.sig())?;
    let entries = find_entries(alloc, index, func.sig(), func.sigs())?;
    Ok(SigTable { own, entries })
}

/// The table of each function of a module. Only `AllocError` refuses.
pub(crate) fn find_tables(alloc: Global, module: &Module) -> Result<Vec<SigTable>, AllocError>
    ensures { IfOk result (λ tables. AreTables «module».now tables.items) }
{
    let mut index = SigIndex::new(alloc);
    let mut tables = Vec::with_capacity(alloc, module.len())?;
    for i in 0..module.len() {
        let table = find_table(alloc, &mut index, module.func(i))?;
        tables.push(table)?;
    }
    Ok(tables)
}
