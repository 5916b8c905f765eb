//! What no clause says: that the words of a function have numbers on an example, and what its size is.

use clif_lex::{TextErr, tokens};
use clif_names::{FunctionNames, function_size};
use clif_read::{RawFunction, RawModule, read_raw_alone};
use std::alloc::{AllocError, Global};
use std::test::Fail;

/// The module of a text.
fn read(alloc: Global, text: &str) -> Result<RawModule, TextErr> {
    let bytes = text.as_bytes();
    let list = tokens(alloc, bytes)?;
    read_raw_alone(alloc, bytes, &list)
}

/// The numbers of a slot's word, a signature's and a callee's, of two blocks' words and of four values'.
fn numbers(alloc: Global, func: &RawFunction) -> Result<[usize; 9], AllocError> {
    let names = FunctionNames::of(alloc, func)?;
    Ok([
        names.slot(3),
        names.sig(2),
        names.callee(9),
        names.block(8),
        names.block(9),
        names.value(5),
        names.value(1),
        names.value(7),
        names.value(6),
    ])
}

#[test]
fn numbers_the_words(rt: HostRuntime) -> Result<(), Fail> {
    let text = "function %f() {\nss3 = explicit_slot 8\nsig2 = ()\nfn9 = %g sig2\nblock4:\n\
        v5 = iconst.i8 1\nv1 -> v5\nv7 = iconst.i8 2\njump block8\nblock8:\nreturn\n}";
    let raw = read(rt.alloc(), text)?;
    for func in raw.functions.as_slice() {
        assert_eq!(rt; numbers(rt.alloc(), func), Ok([0, 0, 0, 1, 2, 0, 0, 1, 2]));
        assert_eq!(rt; function_size(func), 11);
    }
    Ok(())
}
