//! Lists with commas between their items.
ghost use Rattle.std.specs.Prelude.{◌≡◌, ℕ, List};
ghost use Rattle.clk_num.specs.Views.{data_of};
ghost use Rattle.interp.specs.Outcome.{shown_of};
ghost use Rattle.ir_text.specs.TextTree.{Text, spelled, more, separated};
ghost use Rattle.ir_text.specs.TextInstructions.{constant};
ghost use Rattle.text_output.specs.Output.{Start, Puts};
ghost use Rattle.program_run.specs.RunText.{shown_text};

use crate::bytes::put_bytes;
use clif_print::put_constant;
use clk_num::Bits;
use interp::Shown;
use text_output::{Output, put_number};

/// What stands in lists.
pub(crate) trait Item {
    /// Its text.
    ghost text: { Self → Text };

    /// Puts its text.
    fn put<O: Output>(&self, out: &mut O)
        ensures { Puts O.holds out.old out.new (spelled (text self.now)) };
}

impl Item for Bits {
    ghost text = { λ b. constant (data_of b) };

    fn put<O: Output>(&self, out: &mut O) {
        put_constant(out, self);
    }
}

impl Item for Shown {
    ghost text = { λ s. shown_text (shown_of s) };

    fn put<O: Output>(&self, out: &mut O) {
        match self {
            Shown::User(number) => put_number(out, *number),
            Shown::Bytes(bytes) => {
                out.put(b"[");
                put_bytes(out, bytes.as_slice());
                out.put(b"]");
            }
        }
    }
}

/// Puts further items, each behind a comma.
fn put_more<T: Item, O: Output>(out: &mut O, items: &[T])
    ensures { Puts O.holds out.old out.new (spelled (more T.text items.now)) }
{
    let mut rest = items;
    'items: while let Some((item, after)) = rest.split_first() {
        out.put(b", ");
        item.put(out);
        rest = after;
    }
}

/// Puts items with commas between them.
pub(crate) fn put_list<T: Item, O: Output>(out: &mut O, items: &[T])
    ensures { Puts O.holds out.old out.new (spelled (separated T.text items.now)) }
{
    if let Some((first, more)) = items.split_first() {
        first.put(out);
        put_more(out, more);
    }
}
