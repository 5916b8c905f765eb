//! Bytes that wait to be given to a sink.
ghost use Rattle.std.specs.Prelude.{◌≡◌, ◌≤◌, ◌<◌, ◌++◌, ◌+◌, ◌↔◌, IsTrue, List, [], take, length};
ghost use Rattle.std.specs.Fmt.{decimal};

use std::marker::Model;

/// How many bytes wait at most.
const ROOM: usize = 4096;

/// How many digits a number of 64 bits has at most.
pub(crate) const MOST_DIGITS: usize = 20;

/// A few kilobytes that wait. Contracts see them as a list.
#[derive(Drop)]
pub(crate) struct Waiting {
    bytes: [u8; ROOM],
    len: usize,
}

impl Model for Waiting {
    ghost use Rattle.std.specs.Prelude.{ℕ, List, ◌≤◌, take};

    ghost Value = { List ℕ };

    ghost view = { λ w. take w.len w.bytes };

    ghost invariant = { λ w. w.len ≤ 4096 };
}

impl Waiting {
    /// No bytes.
    pub(crate) fn new() -> Waiting
        ensures { result ≡ [] }
    {
        Waiting {
            bytes: [0; ROOM],
            len: 0,
        }
    }

    /// The bytes.
    pub(crate) fn text(&self) -> &[u8]
        ensures { result.now ≡ self.now }
    {
        &self.bytes[..self.len]
    }

    /// Whether so many more bytes have room.
    #[inline(always)]
    pub(crate) fn has_room(&self, count: usize) -> bool
        ensures { IsTrue result ↔ (length self.now + count ≤ 4096) }
    {
        count <= ROOM - self.len
    }

    /// Appends the bytes, one by one: most pieces are a few bytes long.
    #[inline(always)]
    pub(crate) fn append(&mut self, bytes: &[u8])
        requires { length self.old + length bytes.now ≤ 4096 }
        ensures { self.new ≡ self.old ++ bytes.now }
    {
        let start = self.len;
        'bytes: for i in 0..bytes.len() {
            self.bytes[start + i] = bytes[i];
        }
        self.len = start + bytes.len();
    }

    /// Appends the digits of the number, written in place. In small functions most numbers have one digit, which is put
    /// without a count of digits.
    #[inline(always)]
    pub(crate) fn append_digits(&mut self, number: u64)
        requires { length self.old + 20 ≤ 4096 }
        ensures { self.new ≡ self.old ++ decimal number }
    {
        if number < 10 {
            self.append_digit(number as u8);
        } else {
            self.append_several_digits(number);
        }
    }

    /// Appends one digit.
    #[inline(always)]
    fn append_digit(&mut self, digit: u8)
        requires room { length self.old + 1 ≤ 4096 }
        requires one { digit < 10 }
        ensures { self.new ≡ self.old ++ decimal digit }
    {
        self.bytes[self.len] = b'0' + digit;
        self.len += 1;
    }

    /// Appends the digits of a number that may have several.
    #[inline(never)]
    fn append_several_digits(&mut self, number: u64)
        requires { length self.old + 20 ≤ 4096 }
        ensures { self.new ≡ self.old ++ decimal number }
    {
        let end = self.len + digits(number);
        itoa::write_digits(number, &mut self.bytes, end);
        self.len = end;
    }

    /// Lets the bytes go.
    pub(crate) fn clear(&mut self)
        ensures { self.new ≡ [] }
    {
        self.len = 0;
    }
}

/// How many digits a number has.
fn digits(number: u64) -> usize
    ensures { result ≡ length (decimal number) }
{
    let mut left = number;
    let mut count = 1;
    'four: while left >= 10000 {
        left /= 10000;
        count += 4;
    }
    if left < 10 {
        count
    } else if left < 100 {
        count + 1
    } else if left < 1000 {
        count + 2
    } else {
        count + 3
    }
}
