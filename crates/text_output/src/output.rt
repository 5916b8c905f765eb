//! Where a text goes, and the pieces that every text is made of.
ghost use Rattle.std.specs.Prelude.{ℕ, List, ◌++◌};
ghost use Rattle.std.specs.Fmt.{decimal};
ghost use Rattle.text_output.specs.Output.{Start, Puts};

use itoa::Integer;

/// What takes a text piece by piece. A failure shows at the end alone: what comes behind it is dropped.
pub trait Output {
    /// From this start on the output has taken this text.
    ghost holds: { Start → Self → List ℕ → Type 0 };

    /// Takes the bytes.
    fn put(&mut self, bytes: &[u8])
        ensures { Puts holds self.old self.new bytes.now };

    /// Takes the digits of the number.
    fn put_digits(&mut self, number: u64)
        ensures { Puts holds self.old self.new (decimal number) }
    {
        self.put(itoa::Buffer::new().format(number).as_bytes());
    }
}

/// Puts the number in decimal digits, with a sign where it is below 0.
pub fn put_number<O: Output, I: Integer>(out: &mut O, number: I)
    ensures { Puts O.holds out.old out.new (I.text number) }
{
    out.put(itoa::Buffer::new().format(number).as_bytes());
}

/// Puts a word that ends with a number.
pub fn put_numbered<O: Output>(out: &mut O, word: &[u8], number: u32)
    ensures { Puts O.holds out.old out.new (word.now ++ decimal number) }
{
    out.put(word);
    out.put_digits(u64::from(number));
}
