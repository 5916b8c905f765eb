//! Where each value of a function is defined.
ghost use Rattle.std.specs.Prelude.{◌≡◌, ◌<◌, ◌^◌, ℕ, ◌+◌, length, slice_index, IfOk};
ghost use Rattle.ir_core.specs.Lookup.{block_numbers};
ghost use Rattle.ir_core.specs.Lists.{In, Below};
ghost use Rattle.ir_core.specs.Sound.{IsSound};
ghost use Rattle.avail_flow.specs.Flow.{exchanged, code, Known};

use crate::edges::exchange;
use ir_core::{Block, Func, Value};
use std::alloc::{AllocError, Global};

/// Notes that these values are defined at one place.
fn note(values: &[Value], block: usize, line: usize, home: &mut [usize], place: &mut [usize])
    requires inside { Below (length home.old) values.now }
    requires same { length place.old ≡ length home.old }
    ensures noted { (v : ℕ) → In v values.now → (slice_index home.new v ≡ block) × (slice_index place.new v ≡ line) }
    ensures others { (v : ℕ) → (In v values.now → ⊥)
        → (slice_index home.new v ≡ slice_index home.old v) × (slice_index place.new v ≡ slice_index place.old v) }
{
    for value in values {
        let v = value.number() as usize;
        home[v] = block;
        place[v] = line;
    }
}

/// Notes where the values of the block at a place are defined: 0 of a parameter, and one more than the place of the
/// instruction of a result.
fn note_block(func: &Func, first: usize, p: usize, home: &mut [usize], place: &mut [usize])
    requires sound { IsSound func.now.function }
    requires there { In (exchanged first p) (block_numbers func.now.function.blocks) }
    requires small { exchanged first p < 2 ^ 32 }
    requires sizes { (length home.old ≡ length func.now.function.types) × (length place.old ≡ length home.old) }
    requires known { Known (code first func.now.function.blocks) home.old place.old p 0 }
    ensures { Known (code first func.now.function.blocks) home.new place.new (p + 1) 0 }
{
    let block = Block::new(exchange(first, p) as u32);
    note(func.params(block), p, 0, home, place);
    for (i, added) in func.inst_slice(block).iter().enumerate() {
        note(added.results.as_slice(), p, i + 1, home, place);
    }
}

/// Notes where all values are defined.
fn read_definitions(
    func: &Func,
    first: usize,
    count: usize,
    home: &mut [usize],
    place: &mut [usize],
)
    requires sound { IsSound func.now.function }
    requires first { first < length func.now.function.blocks }
    requires count { count ≡ length func.now.function.blocks }
    requires sizes { (length home.old ≡ length func.now.function.types) × (length place.old ≡ length home.old) }
    ensures { Known (code first func.now.function.blocks) home.new place.new count 0 }
{
    for p in 0..count {
        note_block(func, first, p, home, place);
    }
}

/// Of each value where it is defined.
#[derive(Drop)]
pub struct Definitions {
    /// The place of the block that defines it.
    pub home: Vec<usize>,
    /// 0 where it is a parameter, and one more than the place of the instruction that it is a result of.
    pub place: Vec<usize>,
}

/// Finds where all values are defined.
pub fn find_definitions(
    alloc: Global,
    func: &Func,
    first: usize,
    count: usize,
    values: usize,
) -> Result<Definitions, AllocError>
    requires sound { IsSound func.now.function }
    requires first { first < length func.now.function.blocks }
    requires count { count ≡ length func.now.function.blocks }
    requires values { values ≡ length func.now.function.types }
    ensures known { IfOk result (λ d. Known (code first func.now.function.blocks) d.home.items d.place.items count 0) }
    ensures sizes { IfOk result (λ d. (length d.home.items ≡ values) × (length d.place.items ≡ values)) }
{
    let mut home = vec![in alloc; 0; values]?;
    let mut place = vec![in alloc; 0; values]?;
    read_definitions(func, first, count, &mut home, &mut place);
    Ok(Definitions { home, place })
}
