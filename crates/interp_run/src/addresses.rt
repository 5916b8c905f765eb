//! What a run finds by the addresses of names.
ghost use Rattle.std.specs.Prelude.{◌≡◌, ◌<◌, length, map, slice_get, IfOk};
ghost use Rattle.std.specs.Option.{option_copied};
ghost use Rattle.ir_core.specs.Lookup.{and_then};
ghost use Rattle.ir_core.specs.declared.declarations.Callee.{Callee as DeclaredCallee};
ghost use Rattle.ir_core.specs.Named.{place_of};
ghost use Rattle.ir_semantics.specs.Names.{names, address_of};
ghost use Rattle.ir_semantics.specs.Effect.{ByAddress};
ghost use Rattle.ir_semantics.specs.Step.{found, at_name};
ghost use Rattle.func_addrs.specs.Listing.{IsOrdered};
ghost use Rattle.func_addrs.specs.Mentions.{names_of};
ghost use Rattle.interp.specs.State.{function_at, target_of, Linked};
ghost use Rattle.interp_run.specs.Addressing.{callee_addresses, all_addresses, IsAddressed};

use body_import::is_same_sig;
use func_addrs::{FuncAddrs, Mention};
use interp::{Program, Target};
use ir_core::{Callee, FuncRef, Module, Sig, SigRef};
use std::alloc::{AllocError, Global};

/// The names of a module with what they stand for. It is found once before a run.
#[derive(Drop)]
pub struct Addresses<'m> {
    pub names: FuncAddrs<'m>,
    /// For each name, in order, the place of the function that has it.
    pub places: Vec<Option<usize>>,
    /// For each function, by its place, what its callee declarations have.
    pub callees: Vec<CalleeAddrs>,
}

/// The addresses of a function's callee declarations.
#[derive(Drop)]
pub struct CalleeAddrs {
    pub addresses: Vec<Option<u64>>,
}

/// For each name the place of the function that has it.
fn find_places(
    alloc: Global,
    module: &Module,
    names: &[Mention],
) -> Result<Vec<Option<usize>>, AllocError>
    ensures { IfOk result (λ places. places.items ≡ map (λ n. place_of n «module».now) (names_of names.now)) }
{
    let mut places = Vec::new(alloc);
    'names: for mention in names {
        places.push(module.find(mention.name))?;
    }
    Ok(places)
}

/// The addresses of callee declarations.
fn find_callees(
    alloc: Global,
    names: &FuncAddrs,
    callees: &[Callee],
) -> Result<CalleeAddrs, AllocError>
    requires { IsOrdered names.now }
    ensures { IfOk result (λ found. found.addresses.items
        ≡ callee_addresses (names_of names.now.names.items) callees.now) }
{
    let mut addresses = Vec::new(alloc);
    'callees: for callee in callees {
        addresses.push(names.find(&callee.name))?;
    }
    Ok(CalleeAddrs { addresses })
}

/// The addresses of the callee declarations of each function.
fn find_all_callees(
    alloc: Global,
    module: &Module,
    names: &FuncAddrs,
) -> Result<Vec<CalleeAddrs>, AllocError>
    requires { IsOrdered names.now }
    ensures { IfOk result (λ found. map (λ c. c.addresses.items) found.items
        ≡ all_addresses (names_of names.now.names.items) «module».now) }
{
    let mut found = Vec::new(alloc);
    let len = module.len();
    'funcs: for i in 0..len {
        found.push(find_callees(alloc, names, module.func(i).callees())?)?;
    }
    Ok(found)
}

/// What the names of a module stand for. It costs a sort, and a search for each name and callee declaration.
pub fn find_addresses<'m>(alloc: Global, module: &'m Module) -> Result<Addresses<'m>, AllocError>
    ensures { IfOk result (λ addresses. IsAddressed «module».now addresses) }
{
    let names = FuncAddrs::of_module(alloc, module)?;
    let places = find_places(alloc, module, names.names.as_slice())?;
    let callees = find_all_callees(alloc, module, &names)?;
    Ok(Addresses {
        names,
        places,
        callees,
    })
}

/// The address of a callee declaration of the function at a place.
pub fn address_of_callee(
    program: &Program,
    addresses: &Addresses,
    at: usize,
    callee: FuncRef,
) -> Option<u64>
    requires addressed { IsAddressed program.now.module.now addresses.now }
    ensures { result ≡ and_then (slice_get (function_at program.now.module.now at).callees callee)
        (λ c. address_of (names program.now.module.now) c.name) }
{
    if at >= addresses.callees.len() {
        return None;
    }
    let found = &addresses.callees[at];
    let number = callee.number() as usize;
    if number >= found.addresses.len() {
        return None;
    }
    found.addresses[number]
}

/// A signature of the function at a place.
fn find_sig<'m>(program: &Program<'m>, at: usize, sig: SigRef) -> Option<&'m Sig>
    ensures { option_copied result ≡ slice_get (function_at program.now.module.now at).sigs sig }
{
    let module = program.module;
    if at >= module.len() {
        return None;
    }
    let sigs = module.func(at).sigs();
    let number = sig.number() as usize;
    if number >= sigs.len() {
        return None;
    }
    Some(&sigs[number])
}

/// What a call by a signature finds at the name that has a place.
fn find_name<'m>(
    program: &Program<'m>,
    addresses: &Addresses<'m>,
    place: usize,
    sig: &'m Sig,
) -> Target<'m>
    requires addressed { IsAddressed program.now.module.now addresses.now }
    requires there { place < length addresses.now.names.names.items }
    ensures { target_of program.now.module.now result
        ≡ at_name program.now.module.now (slice_get (names program.now.module.now) place) sig.now }
{
    let name = addresses.names.names[place].name;
    match addresses.places[place] {
        None => Target::Outside(name, sig),
        Some(at) => {
            if is_same_sig(program.module.func(at).sig(), sig) {
                Target::Inside(at)
            } else {
                Target::Nowhere
            }
        }
    }
}

/// What a call by a signature and an address finds, in the function at a place.
pub fn find_address<'m>(
    program: &Program<'m>,
    addresses: &Addresses<'m>,
    at: usize,
    sig: SigRef,
    address: u128,
) -> Target<'m>
    requires addressed { IsAddressed program.now.module.now addresses.now }
    ensures { target_of program.now.module.now result
        ≡ found program.now.module.now (function_at program.now.module.now at) (ByAddress sig address) }
{
    let Some(sig) = find_sig(program, at, sig) else {
        return Target::Missing;
    };
    let Some(place) = addresses.names.place(address) else {
        return Target::Nowhere;
    };
    find_name(program, addresses, place, sig)
}
