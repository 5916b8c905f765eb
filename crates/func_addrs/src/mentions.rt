//! The names that a module speaks of.
ghost use Rattle.std.specs.Prelude.{◌≡◌, ◌++◌, ◌<◌, drop, length, map, IfOk, OnOk};
ghost use Rattle.std.specs.List.Sorted.{IsPermutation};
ghost use Rattle.ir_core.specs.declared.declarations.Callee.{Callee as DeclaredCallee};
ghost use Rattle.ir_semantics.specs.Names.{mentioned, in_order};
ghost use Rattle.func_addrs.specs.Mentions.{names_of};
ghost use Rattle.func_addrs.specs.Order.{NeverFalls, begins_apart};

use crate::order::compare_names;
use ir_core::{Callee, FuncName, Module};
use std::alloc::{AllocError, Global};

/// A name where it stands in a module.
#[derive(Clone, Copy)]
pub struct Mention<'m> {
    pub name: &'m FuncName,
}

/// Appends the names of callee declarations.
fn push_callees<'m>(
    callees: &'m [Callee],
    mentions: &mut Vec<Mention<'m>>,
) -> Result<(), AllocError>
    ensures { OnOk result (names_of mentions.new.items
        ≡ names_of mentions.old.items ++ map (λ (c : DeclaredCallee). c.name) callees.now) }
{
    'callees: for callee in callees {
        mentions.push(Mention { name: &callee.name })?;
    }
    Ok(())
}

/// The names of a module's functions and callee declarations, as they stand in it.
pub fn collect_mentions<'m>(
    alloc: Global,
    module: &'m Module,
) -> Result<Vec<Mention<'m>>, AllocError>
    ensures { IfOk result (λ mentions. names_of mentions.items ≡ mentioned «module».now) }
{
    let mut mentions = Vec::new(alloc);
    let len = module.len();
    'funcs: for i in 0..len {
        let func = module.func(i);
        mentions.push(Mention { name: func.name() })?;
        push_callees(func.callees(), &mut mentions)?;
    }
    Ok(mentions)
}

/// Puts the names in order.
pub fn sort_mentions(mentions: &mut Vec<Mention>)
    ensures same { IsPermutation mentions.old.items mentions.new.items }
    ensures ordered { NeverFalls (names_of mentions.new.items) }
{
    mentions.sort_unstable_by(|a, b| compare_names(a.name, b.name));
}

/// Whether the name at a place differs from the next, or is the last.
fn is_apart(sorted: &[Mention], i: usize) -> bool
    requires { i < length sorted.now }
    ensures { result ≡ begins_apart (names_of (drop i sorted.now)) }
{
    if i + 1 == sorted.len() {
        return true;
    }
    compare_names(sorted[i].name, sorted[i + 1].name).is_lt()
}

/// Each name once, of names that never fall.
pub fn keep_apart<'m>(alloc: Global, sorted: &[Mention<'m>]) -> Result<Vec<Mention<'m>>, AllocError>
    requires { NeverFalls (names_of sorted.now) }
    ensures { IfOk result (λ kept. names_of kept.items ≡ in_order (names_of sorted.now)) }
{
    let mut kept = Vec::new(alloc);
    'names: for i in 0..sorted.len() {
        if is_apart(sorted, i) {
            kept.push(sorted[i])?;
        }
    }
    Ok(kept)
}
