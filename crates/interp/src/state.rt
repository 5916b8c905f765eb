//! The state of a run.
ghost use Rattle.std.specs.Prelude.{IsTrue, map};
ghost use Rattle.ir_core.specs.Viewed.{line_of};
ghost use Rattle.interp.specs.Lines.{lines_fit};

use crate::outcome::{End, Event};
use crate::registers::Registers;
use byte_store::{Memory, Slots};
use host_script::Reply;
use ir_core::{BlockCall, FuncName, InstData, Module, Sig, Value};

/// A module, and what is found in it once before a run.
#[derive(Drop)]
pub struct Program<'m> {
    pub module: &'m Module,
    /// For each function, by its place.
    pub links: Vec<Links>,
}

/// What is found of a function.
#[derive(Drop)]
pub struct Links {
    /// The number of its blocks.
    pub blocks: usize,
    /// For each callee declaration the place of the function that has its name.
    pub callees: Vec<Option<usize>>,
}

/// A frame of a run: the place of its function, the instructions that its block has left, its values and slots, and the
/// numbers that tail calls put in front of its tags.
#[derive(Drop)]
pub struct Frame<'m> {
    pub at: usize,
    pub rest: &'m [InstData],
    pub values: Registers,
    pub slots: Slots,
    pub extra: Vec<u32>,
    pub ghost fit: { IsTrue (lines_fit (map line_of rest.now)) },
}

/// A frame that waits at a call.
#[derive(Drop)]
pub struct Wait<'m> {
    pub line: &'m InstData,
    pub frame: Frame<'m>,
}

/// What is outside the stack: the memory, the replies that are left, and the events so far.
#[derive(Drop)]
pub struct World<'m> {
    pub memory: Memory,
    pub replies: &'m [Reply],
    pub events: Vec<Event>,
}

/// Why a run stops. No run of an accepted module is stuck.
#[derive(Drop)]
pub enum Stop {
    At(End),
    Stuck,
}

/// A block as a run enters it: its parameters and its instructions.
#[derive(Drop)]
pub struct Entry<'m> {
    pub params: &'m [Value],
    pub lines: &'m [InstData],
    pub ghost fit: { IsTrue (lines_fit (map line_of lines.now)) },
}

/// What the search in the tables of a throw has found: the number of entries that were passed, with the target of the
/// one that takes the exception.
#[derive(Drop)]
pub enum Search<'m> {
    Missed(u128),
    Hit(u128, &'m BlockCall),
}

/// What a call finds: the function at a place of the module, a host function with the signature by which it is called,
/// no function at the address, or nothing.
#[derive(Drop)]
pub enum Target<'m> {
    Inside(usize),
    Outside(&'m FuncName, &'m Sig),
    Nowhere,
    Missing,
}
