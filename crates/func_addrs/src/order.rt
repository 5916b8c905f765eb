//! The order of names.
ghost use Rattle.std.specs.Prelude.{◌≡◌};
ghost use Rattle.func_addrs.specs.Order.{name_cmp, text_cmp, numbers_cmp};

use ir_core::FuncName;
use std::cmp::Ordering;

/// How two names compare: names with a text come first, by their bytes, then those of two numbers, by these.
pub fn compare_names(name: &FuncName, other: &FuncName) -> Ordering
    ensures { result ≡ name_cmp name.now other.now }
{
    match name {
        FuncName::Text(text) => compare_text(text.as_slice(), other),
        FuncName::User(first, second) => compare_numbers(*first, *second, other),
    }
}

/// How a name with a text compares to another name.
fn compare_text(text: &[u8], other: &FuncName) -> Ordering
    ensures { result ≡ text_cmp text.now other.now }
{
    match other {
        FuncName::Text(other) => text.cmp(other.as_slice()),
        FuncName::User(_, _) => Ordering::Less,
    }
}

/// How a name of two numbers compares to another name.
fn compare_numbers(first: u32, second: u32, other: &FuncName) -> Ordering
    ensures { result ≡ numbers_cmp first second other.now }
{
    match other {
        FuncName::Text(_) => Ordering::Greater,
        FuncName::User(a, b) => first.cmp(a).then(second.cmp(b)),
    }
}
