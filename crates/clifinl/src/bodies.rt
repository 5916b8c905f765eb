//! Finished bodies as what is printed.

use ir_core::Func;
use print_workers::Functions;
use worker_driver::Finished;

/// The finished bodies of a module, printed from where they stand.
#[derive(Drop)]
pub(crate) struct Bodies<'f> {
    pub(crate) finished: &'f Finished,
}

impl<'f> Functions for Bodies<'f> {
    ghost functions = { λ bodies. bodies.finished.now };

    fn len(&self) -> usize {
        self.finished.len()
    }

    fn func(&self, place: usize) -> &Func {
        self.finished.func(place)
    }
}
