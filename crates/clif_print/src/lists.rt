//! Lists of things with commas between them, and declarations on lines of their own.
ghost use Rattle.std.specs.Prelude.{ℕ, List};
ghost use Rattle.ir_text.specs.Numbering.{Numbering};
ghost use Rattle.ir_text.specs.TextTree.{Text, spelled, more, separated, in_parentheses, in_brackets};
ghost use Rattle.text_output.specs.Output.{Start, Puts};

use clif_numbers::FuncNumbers;
use text_output::Output;

/// What stands in lists.
pub(crate) trait Item {
    /// Its text, with the canonical numbers of its function.
    ghost text: { Numbering → Self → Text };

    /// Puts its text.
    fn put<O: Output>(&self, numbers: &FuncNumbers, out: &mut O)
        ensures { Puts O.holds out.old out.new (spelled (text numbers.now.numbering self.now)) };
}

/// Puts further items, each behind a comma.
fn put_more<T: Item, O: Output>(out: &mut O, numbers: &FuncNumbers, items: &[T])
    ensures { Puts O.holds out.old out.new (spelled (more (T.text numbers.now.numbering) items.now)) }
{
    let mut rest = items;
    'items: while let Some((item, after)) = rest.split_first() {
        out.put(b", ");
        item.put(numbers, out);
        rest = after;
    }
}

/// Puts items with commas between them.
pub(crate) fn put_list<T: Item, O: Output>(out: &mut O, numbers: &FuncNumbers, items: &[T])
    ensures { Puts O.holds out.old out.new (spelled (separated (T.text numbers.now.numbering) items.now)) }
{
    if let Some((first, more)) = items.split_first() {
        first.put(numbers, out);
        put_more(out, numbers, more);
    }
}

/// Puts items in parentheses.
pub(crate) fn put_in_parentheses<T: Item, O: Output>(
    out: &mut O,
    numbers: &FuncNumbers,
    items: &[T],
)
    ensures { Puts O.holds out.old out.new
        (spelled (in_parentheses (separated (T.text numbers.now.numbering) items.now))) }
{
    out.put(b"(");
    put_list(out, numbers, items);
    out.put(b")");
}
