//! A module's memory.
ghost use Rattle.std.specs.Prelude.{◌≡◌, ◌+◌, ◌-◌, ◌*◌, ◌^◌, ◌≤◌, ◌↔◌, ◌<◌, Some, None, if◌then◌else◌, length, IfOk};
ghost use Rattle.std.specs.Prelude.{OnOk, OnErr, MatchResult, IsTrue};
ghost use Rattle.ir_semantics.specs.Values.{number_of, bytes_of, by_endian, memory_read, memory_write};
ghost use Rattle.byte_store.specs.Bytes.{number_by};

use crate::errors::OutOfRange;
use std::marker::Model;

/// A memory: bytes from address 0 on. Contracts see the list of its bytes.
#[derive(Drop)]
pub struct Memory {
    bytes: Vec<u8>,
}

impl Model for Memory {
    ghost use Rattle.std.specs.Prelude.{List, ℕ};

    ghost Value = { List ℕ };

    ghost view = { λ m. m.bytes.items };
}

impl Memory {
    /// The memory of these bytes. It takes no memory.
    pub fn new(bytes: Vec<u8>) -> Memory
        ensures { result ≡ bytes.items }
    {
        Memory { bytes }
    }

    /// The bytes from address 0 on.
    pub fn bytes(&self) -> &[u8]
        ensures { result.now ≡ self.now }
    {
        self.bytes.as_slice()
    }

    /// The number in so many bytes from an address on: the lowest first, or the highest where `big`. `OutOfRange`
    /// exactly where the range passes the end.
    pub fn read(&self, address: u64, bytes: u32, big: bool) -> Result<u128, OutOfRange>
        requires { bytes ≤ 16 }
        ensures read { let read = memory_read self.now address bytes in MatchResult result
            (λ n. Some n ≡ number_by big read) (λ _. None ≡ read) }
        ensures small { IfOk result (λ n. n < 2 ^ (8 * bytes)) }
    {
        let size = bytes as usize;
        if !is_inside(self.bytes.len(), address, size) {
            return Err(OutOfRange);
        }
        let at = address as usize;
        Ok(number(&self.bytes[at..][..size], big))
    }

    /// Writes the lowest bytes of a number from an address on: the lowest first, or the highest where `big`.
    /// `OutOfRange` exactly where the range passes the end; then nothing has changed.
    pub fn write(
        &mut self,
        address: u64,
        bytes: u32,
        big: bool,
        value: u128,
    ) -> Result<(), OutOfRange>
        ensures ok { OnOk result
            (Some self.new ≡ memory_write self.old address (by_endian big (bytes_of bytes value))) }
        ensures err { OnErr result (None ≡ memory_write self.old address (by_endian big (bytes_of bytes value))) }
        ensures kept { OnErr result (self.new ≡ self.old) }
    {
        let size = bytes as usize;
        if !is_inside(self.bytes.len(), address, size) {
            return Err(OutOfRange);
        }
        let at = address as usize;
        put_number(&mut self.bytes[at..at + size], big, value);
        Ok(())
    }
}

/// Whether so many bytes from an address on lie in a memory of this length.
fn is_inside(len: usize, address: u64, size: usize) -> bool
    ensures { IsTrue result ↔ (address + size ≤ len) }
{
    address <= len as u64 && size as u64 <= len as u64 - address
}

/// The number of at most 16 bytes.
fn number(bytes: &[u8], big: bool) -> u128
    requires { length bytes.now ≤ 16 }
    ensures is { result ≡ number_of (by_endian big bytes.now) }
    ensures small { result < 2 ^ (8 * length bytes.now) }
{
    let mut number = 0u128;
    let len = bytes.len();
    'bytes: for i in 0..len {
        number = number * 256 + u128::from(bytes[place_of(i, len, big)]);
    }
    number
}

/// Where the byte stands before which i bytes are higher.
fn place_of(i: usize, len: usize, big: bool) -> usize
    requires { i < len }
    ensures at { result ≡ (if big then i else len - 1 - i) }
    ensures inside { result < len }
{
    if big { i } else { len - 1 - i }
}

/// Fills a range with the lowest bytes of a number.
fn put_number(range: &mut [u8], big: bool, number: u128)
    ensures { range.new ≡ by_endian big (bytes_of (length range.old) number) }
{
    let mut rest = number;
    'bytes: for byte in range.iter_mut() {
        *byte = (rest % 256) as u8;
        rest /= 256;
    }
    if big {
        range.reverse();
    }
}
