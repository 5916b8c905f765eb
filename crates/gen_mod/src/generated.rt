//! Generated modules.
ghost use Rattle.std.specs.Prelude.{◌≡◌, ◌<◌, IfOk};
ghost use Rattle.ir_semantics.specs.Accepted.{Accepted};
ghost use Rattle.gen_mod.specs.Draws as draws;
ghost use Rattle.gen_mod.specs.Generated as spec;

use crate::draws::draw;
use crate::shapes::{adding, calling_two, choosing, trying};
use ir_core::{Func, Module};
use std::alloc::{AllocError, Global};

/// The number of an earlier function.
fn earlier(state: &mut u64, number: u32) -> u32
    requires { 0 < number }
    ensures state { state.new ≡ draws.after state.old }
    ensures number { result ≡ draws.number number state.new }
{
    draw(state, u64::from(number)) as u32
}

/// A function that is not the first, of the shape.
fn shaped(alloc: Global, shape: u64, number: u32, state: &mut u64) -> Result<Func, AllocError>
    requires { 0 < number }
    ensures { IfOk result (λ func. (func.function, state.new) ≡ spec.shaped shape number state.old) }
{
    match shape {
        0 => {
            let constant = draw(state, 1000);
            adding(alloc, number, constant)
        }
        1 => {
            let a = earlier(state, number);
            let b = earlier(state, number);
            calling_two(alloc, number, a, b)
        }
        2 => {
            let a = earlier(state, number);
            trying(alloc, number, a)
        }
        _ => {
            let constant = draw(state, 1000);
            let a = earlier(state, number);
            choosing(alloc, number, constant, a)
        }
    }
}

/// The function of the number, and the state behind its draws.
fn function(alloc: Global, number: u32, state: &mut u64) -> Result<Func, AllocError>
    ensures { IfOk result (λ func. (func.function, state.new) ≡ spec.function number state.old) }
{
    if number == 0 {
        let constant = draw(state, 1000);
        return adding(alloc, number, constant);
    }
    let shape = draw(state, 4);
    shaped(alloc, shape, number, state)
}

/// The module of so many functions that a number gives. Function I has the name `%gI`, and calls earlier functions of
/// the module and `%host` alone. Takes time linear in the number of functions but for the logarithm of a name's place.
pub fn generate(alloc: Global, number: u64, functions: u32) -> Result<Module, AllocError>
    ensures module { IfOk result (λ m. m ≡ spec.generated number functions) }
    ensures accepted { IfOk result (λ m. Accepted m) }
{
    let mut module = Module::new(alloc);
    let mut state = number;
    'made: for i in 0..functions {
        module.push(function(alloc, i, &mut state)?)?;
    }
    Ok(module)
}
