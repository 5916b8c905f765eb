//! Canonical numbers: values in order of definition in the text, blocks in order of the list.
ghost use Rattle.std.specs.Prelude.{◌≡◌, ◌+◌, ◌<◌, ◌≤◌, ◌++◌, [], List, IfOk, IsOk, OnOk, Some, length, map, slice_get};
ghost use Rattle.std.specs.Prelude.{vec_capacity, vec_len};
ghost use Rattle.ir_core.specs.Lookup.{block_numbers, definitions, line_definitions, number_in};
ghost use Rattle.ir_text.specs.Numbering.{Numbering, numbering_of, numberings_of};
ghost use Rattle.ir_core.specs.Sound.{IsWhole};
ghost use Rattle.ir_core.specs.Viewed.{line_of};
ghost use Rattle.clif_numbers.specs.Room.{HasRoomFor, KeepsRoom};

use crate::places::Places;
use ir_core::{Block, Func, InstData, Module, Value};
use std::alloc::{AllocError, Global};
use std::marker::Model;

/// The canonical numbers of one function. Contracts see the values and the blocks in their canonical order, and how
/// many of both a function may have to be numbered without memory.
#[derive(Drop)]
pub struct FuncNumbers {
    values: Places,
    blocks: Places,
}

impl Model for FuncNumbers {
    ghost use Rattle.std.specs.Prelude.{min};
    ghost use Rattle.clif_numbers.specs.Room.{NumbersInRoom};

    ghost Value = { NumbersInRoom };

    ghost view = { λ n.
        record {
          numbering = record { values = n.values.order; blocks = n.blocks.order };
          values = min n.values.listed n.values.bound;
          blocks = min n.blocks.listed n.blocks.bound;
        } };
}

impl FuncNumbers {
    /// No numbers. Takes no memory.
    pub fn new(alloc: Global) -> FuncNumbers
        ensures values { result.numbering.values ≡ [] }
        ensures blocks { result.numbering.blocks ≡ [] }
    {
        FuncNumbers {
            values: Places::new(alloc),
            blocks: Places::new(alloc),
        }
    }

    /// Makes room for the numbers of a function. The numbers left are of no function. Only `AllocError` refuses.
    pub fn make_room(&mut self, func: &Func) -> Result<(), AllocError>
        ensures room { OnOk result (HasRoomFor func.now.function self.new) }
        ensures kept { KeepsRoom self.old self.new }
    {
        self.values.make_room(func.values())?;
        self.blocks.make_room(func.block_count())
    }

    /// The numbers of a whole function in place of those before, in their memory. Only `AllocError` refuses, where
    /// there is no room for them, and leaves numbers of no function.
    pub fn renumber(&mut self, func: &Func) -> Result<(), AllocError>
        requires { IsWhole func.now.function }
        ensures numbering { OnOk result (self.new.numbering ≡ numbering_of func.now.function) }
        ensures succeeds { HasRoomFor func.now.function self.old → IsOk result }
        ensures kept { OnOk result (KeepsRoom self.old self.new) }
    {
        let values = definitions(self.values.take(), func)?;
        self.values.set(func.values(), values)?;
        let blocks = block_order(self.blocks.take(), func)?;
        let count = blocks.len();
        self.blocks.set(count, blocks)
    }

    /// The number of a value.
    pub fn value(&self, value: Value) -> u64
        ensures { result ≡ number_in self.now.numbering.values value }
    {
        self.values.place(value.number())
    }

    /// The number of a block.
    pub fn block(&self, block: Block) -> u64
        ensures { result ≡ number_in self.now.numbering.blocks block }
    {
        self.blocks.place(block.number())
    }
}

/// The canonical numbers of every value and block of a module. Contracts see a list with those of each function.
#[derive(Drop)]
pub struct Numbers {
    funcs: Vec<FuncNumbers>,
}

impl Model for Numbers {
    ghost use Rattle.std.specs.Prelude.{List, map};
    ghost use Rattle.ir_text.specs.Numbering.{Numbering};

    ghost Value = { List Numbering };

    ghost view = { λ n. map (λ func. func.numbering) n.funcs.items };
}

impl Numbers {
    /// The numbers of one function.
    pub fn func(&self, func: usize) -> &FuncNumbers
        requires { func < length self.now }
        ensures { slice_get self.now func ≡ Some result.now.numbering }
    {
        &self.funcs[func]
    }
}

/// The canonical numbers of a module. Only `AllocError` refuses.
pub fn numbering(alloc: Global, module: &Module) -> Result<Numbers, AllocError>
    ensures { IfOk result (λ numbers. numbers ≡ numberings_of «module».now) }
{
    let mut funcs = Vec::with_capacity(alloc, module.len())?;
    for i in 0..module.len() {
        let numbers = func_numbers(alloc, module.func(i))?;
        funcs.push(numbers)?;
    }
    Ok(Numbers { funcs })
}

/// The canonical numbers of a whole function. Only `AllocError` refuses.
pub fn func_numbers(alloc: Global, func: &Func) -> Result<FuncNumbers, AllocError>
    requires { IsWhole func.now.function }
    ensures { IfOk result (λ numbers. numbers.numbering ≡ numbering_of func.now.function) }
{
    let mut numbers = FuncNumbers::new(alloc);
    numbers.renumber(func)?;
    Ok(numbers)
}

/// The values of a function in order of definition, in the memory of an empty list. Only `AllocError` refuses, where
/// the list has no room for them.
fn definitions(empty: Vec<u32>, func: &Func) -> Result<Vec<u32>, AllocError>
    requires { empty.items ≡ [] }
    ensures values { IfOk result (λ values. values.items ≡ definitions func.now.function.blocks) }
    ensures room { IfOk result (λ values. vec_capacity empty ≤ vec_capacity values) }
    ensures succeeds { length func.now.function.types ≤ vec_capacity empty → IsOk result }
{
    let mut order = empty;
    order.reserve(func.values())?;
    for block in func.blocks() {
        append_values(&mut order, func.params(block));
        append_results(&mut order, func.inst_slice(block));
    }
    Ok(order)
}

/// Appends the numbers of the values that these instructions define, for which there is room.
fn append_results(order: &mut Vec<u32>, lines: &[InstData])
    requires { vec_len order.old + length (line_definitions (map line_of lines.now)) ≤ vec_capacity order.old }
    ensures items { order.new.items ≡ order.old.items ++ line_definitions (map line_of lines.now) }
    ensures capacity { vec_capacity order.new ≡ vec_capacity order.old }
{
    let mut rest = lines;
    'lines: while let Some((line, after)) = rest.split_first() {
        append_values(order, line.results.as_slice());
        rest = after;
    }
}

/// Appends the numbers of these values, for which there is room.
fn append_values(order: &mut Vec<u32>, values: &[Value])
    requires { vec_len order.old + length values.now ≤ vec_capacity order.old }
    ensures items { order.new.items ≡ order.old.items ++ values.now }
    ensures capacity { vec_capacity order.new ≡ vec_capacity order.old }
{
    for value in values {
        order.push_reserved(value.number());
    }
}

/// The numbers of a function's blocks in list order, in the memory of an empty list. Only `AllocError` refuses, where
/// the list has no room for them.
fn block_order(empty: Vec<u32>, func: &Func) -> Result<Vec<u32>, AllocError>
    requires { empty.items ≡ [] }
    ensures blocks { IfOk result (λ blocks. blocks.items ≡ block_numbers func.now.function.blocks) }
    ensures room { IfOk result (λ blocks. vec_capacity empty ≤ vec_capacity blocks) }
    ensures succeeds { length func.now.function.blocks ≤ vec_capacity empty → IsOk result }
{
    let mut order = empty;
    order.reserve(func.block_count())?;
    for block in func.blocks() {
        order.push_reserved(block.number());
    }
    Ok(order)
}
