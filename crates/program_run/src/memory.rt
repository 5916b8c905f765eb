//! The lines of a memory.
ghost use Rattle.std.specs.Prelude.{◌≡◌, ◌==◌, ℕ, List};
ghost use Rattle.std.specs.List.{list_all};
ghost use Rattle.ir_text.specs.TextTree.{Text, spelled};
ghost use Rattle.text_output.specs.Output.{Start, Puts};
ghost use Rattle.program_run.specs.RunText.{address_text, group_line, memory_text};

use crate::bytes::{put_byte, put_bytes};
use text_output::Output;

/// How many bytes stand on a line.
const GROUP: usize = 16;

/// Whether all bytes are 0.
fn are_zero(bytes: &[u8]) -> bool
    ensures { result ≡ list_all (λ b. b == 0) bytes.now }
{
    bytes.iter().all(|byte| *byte == 0)
}

/// Puts an address in eight hexadecimal digits.
fn put_address<O: Output>(out: &mut O, address: usize)
    ensures { Puts O.holds out.old out.new (spelled (address_text address)) }
{
    put_byte(out, (address / 0x100_0000 % 256) as u8);
    put_byte(out, (address / 0x1_0000 % 256) as u8);
    put_byte(out, (address / 0x100 % 256) as u8);
    put_byte(out, (address % 256) as u8);
}

/// Puts the line of the bytes of a group, which stand from this address on, unless all are 0.
fn put_group<O: Output>(out: &mut O, address: usize, bytes: &[u8])
    ensures { Puts O.holds out.old out.new (spelled (group_line address bytes.now)) }
{
    if are_zero(bytes) {
        return;
    }
    out.put(b"memory ");
    put_address(out, address);
    out.put(b": ");
    put_bytes(out, bytes);
    out.put(b"\n");
}

/// Puts a line for each group of addresses whose bytes are not all 0.
pub(crate) fn put_memory<O: Output>(out: &mut O, memory: &[u8])
    ensures { Puts O.holds out.old out.new (spelled (memory_text memory.now)) }
{
    let len = memory.len();
    for i in 0..len.div_ceil(GROUP) {
        let address = GROUP * i;
        put_group(out, address, &memory[address..len.min(address + GROUP)]);
    }
}
