//! Outputs without a sink: a text in memory, and the length of a text.
ghost use Rattle.std.specs.Prelude.{◌≡◌, ◌^◌, ◌-◌, ◌++◌, ℕ, List, [], false, length, min, IfOk};
ghost use Rattle.text_output.specs.Output.{Start, Puts};

use crate::output::Output;
use crate::waiting::{MOST_DIGITS, Waiting};
use std::alloc::{AllocError, Global};

/// A text in memory, and bytes that wait until there are enough to append them. Once there is no memory, what comes is
/// dropped.
#[derive(Drop)]
pub struct MemoryOutput {
    text: Vec<u8>,
    waiting: Waiting,
    refused: bool,
}

impl MemoryOutput {
    /// The output that took nothing.
    pub fn new(alloc: Global) -> MemoryOutput
        ensures { result.text.items ++ result.waiting ≡ [] }
    {
        MemoryOutput {
            text: Vec::new(alloc),
            waiting: Waiting::new(),
            refused: false,
        }
    }

    /// Appends what waits to the text.
    fn flush(&mut self)
        ensures empty { self.new.waiting ≡ [] }
        ensures text { self.new.refused ≡ false → (self.old.refused ≡ false)
            × (self.new.text.items ≡ self.old.text.items ++ self.old.waiting) }
    {
        if !self.refused {
            self.refused = self.text.extend_from_slice(self.waiting.text()).is_err();
        }
        self.waiting.clear();
    }

    /// Takes bytes that have no room behind those that wait.
    #[inline(never)]
    fn put_behind(&mut self, bytes: &[u8])
        ensures { self.new.refused ≡ false
            → (self.old.refused ≡ false)
            × (self.new.text.items ++ self.new.waiting ≡ (self.old.text.items ++ self.old.waiting) ++ bytes.now) }
    {
        self.flush();
        if self.waiting.has_room(bytes.len()) {
            self.waiting.append(bytes);
        } else if !self.refused {
            self.refused = self.text.extend_from_slice(bytes).is_err();
        }
    }

    /// The whole text, if memory was enough.
    pub fn finish(mut self) -> Result<Vec<u8>, AllocError>
        ensures { IfOk result (λ text. (self.refused ≡ false) × (text.items ≡ self.text.items ++ self.waiting)) }
    {
        self.flush();
        let MemoryOutput { text, refused, .. } = self;
        if refused { Err(AllocError) } else { Ok(text) }
    }
}

impl Output for MemoryOutput {
    ghost holds = { λ start out text. out.refused ≡ false → out.text.items ++ out.waiting ≡ text };

    #[inline(always)]
    fn put(&mut self, bytes: &[u8]) {
        if self.waiting.has_room(bytes.len()) {
            self.waiting.append(bytes);
        } else {
            self.put_behind(bytes);
        }
    }

    fn put_digits(&mut self, number: u64) {
        if self.waiting.has_room(MOST_DIGITS) {
            self.waiting.append_digits(number);
        } else {
            self.put_behind(itoa::Buffer::new().format(number).as_bytes());
        }
    }
}

/// The length of a text, and the greatest number of its type for a longer one.
#[derive(Drop)]
pub struct LengthOutput {
    len: u64,
}

impl LengthOutput {
    /// The output that took nothing.
    pub fn new() -> LengthOutput
        ensures { result.len ≡ 0 }
    {
        LengthOutput { len: 0 }
    }

    /// The length of what it took.
    pub fn len(&self) -> u64
        ensures { result ≡ self.now.len }
    {
        self.len
    }
}

impl Output for LengthOutput {
    ghost holds = { λ start out text. out.len ≡ min (length text) (2 ^ 64 - 1) };

    fn put(&mut self, bytes: &[u8]) {
        self.len = self.len.saturating_add(bytes.len() as u64);
    }
}
