//! Cells that are written one by one.
ghost use Rattle.std.specs.Prelude.{◌≡◌, ◌<◌, ◌≤◌, [], length, OnOk, OnErr};
ghost use Rattle.byte_store.specs.Cells.{cell_of, put_cell};

use std::alloc::{AllocError, Global};
use std::marker::Model;

/// Cells by their numbers, without an end, each written or not. Contracts see a list, in which
/// `cell_of` finds a number's value. Cells take memory up to the greatest number that was written.
#[derive(Drop)]
pub struct Cells<T> {
    cells: Vec<Option<T>>,
}

impl<T> Model for Cells<T> {
    ghost use Rattle.std.specs.Prelude.{List, Option};

    ghost Value = { List (Option T) };

    ghost view = { λ c. c.cells.items };
}

impl<T> Cells<T> {
    /// No cell is written. It takes no memory.
    #[inline]
    pub fn new(alloc: Global) -> Cells<T>
        ensures { result ≡ [] }
    {
        Cells {
            cells: Vec::new(alloc),
        }
    }
}

impl<T: Copy> Cells<T> {
    /// The value of a cell, where it is written.
    #[inline]
    pub fn get(&self, at: usize) -> Option<T>
        ensures { result ≡ cell_of self.now at }
    {
        if at < self.cells.len() {
            self.cells[at]
        } else {
            None
        }
    }

    /// Makes place for the first `len` cells. What is written stays as it was; an `Err` is want of memory.
    #[inline]
    pub fn make_room(&mut self, len: usize) -> Result<(), AllocError>
        ensures same { cell_of self.new ≡ cell_of self.old }
        ensures room { OnOk result (len ≤ length self.new) }
    {
        'room: while self.cells.len() < len {
            self.cells.push(None)?;
        }
        Ok(())
    }

    /// Writes a cell that has its place.
    #[inline]
    pub fn set(&mut self, at: usize, value: T)
        requires { at < length self.old }
        ensures written { cell_of self.new ≡ put_cell (cell_of self.old) at value }
        ensures room { length self.new ≡ length self.old }
    {
        self.cells[at] = Some(value);
    }

    /// Writes a cell. Only `AllocError` refuses; then no cell has changed.
    #[inline]
    pub fn put(&mut self, at: usize, value: T) -> Result<(), AllocError>
        ensures ok { OnOk result (cell_of self.new ≡ put_cell (cell_of self.old) at value) }
        ensures err { OnErr result (cell_of self.new ≡ cell_of self.old) }
    {
        'room: while self.cells.len() <= at {
            self.cells.push(None)?;
        }
        self.cells[at] = Some(value);
        Ok(())
    }
}
