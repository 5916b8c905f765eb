//! Bytes in hexadecimal digits.
ghost use Rattle.std.specs.Prelude.{◌≡◌, ◌<◌, ℕ, List};
ghost use Rattle.ir_text.specs.TextTree.{Text, spelled};
ghost use Rattle.text_output.specs.Output.{Start, Puts};
ghost use Rattle.program_run.specs.RunText as text;

use text_output::Output;

/// A hexadecimal digit.
fn hex_digit(digit: u8) -> u8
    requires { digit < 16 }
    ensures { result ≡ text.hex_digit digit }
{
    if digit < 10 {
        b'0' + digit
    } else {
        b'a' - 10 + digit
    }
}

/// Puts a byte in two hexadecimal digits.
pub(crate) fn put_byte<O: Output>(out: &mut O, byte: u8)
    ensures { Puts O.holds out.old out.new (spelled (text.byte_text byte)) }
{
    out.put(&[hex_digit(byte / 16), hex_digit(byte % 16)]);
}

/// Puts further bytes, each behind a space.
fn put_more_bytes<O: Output>(out: &mut O, bytes: &[u8])
    ensures { Puts O.holds out.old out.new (spelled (text.more_bytes bytes.now)) }
{
    let mut rest = bytes;
    'bytes: while let Some((byte, after)) = rest.split_first() {
        out.put(b" ");
        put_byte(out, *byte);
        rest = after;
    }
}

/// Puts bytes with spaces between them.
pub(crate) fn put_bytes<O: Output>(out: &mut O, bytes: &[u8])
    ensures { Puts O.holds out.old out.new (spelled (text.bytes_text bytes.now)) }
{
    if let Some((first, more)) = bytes.split_first() {
        put_byte(out, *first);
        put_more_bytes(out, more);
    }
}
