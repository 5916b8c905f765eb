//! Lists of values, and names, of the lengths that stand in the list itself and of longer ones.

use ir_core::{NameBytes, Value, Values};
use std::alloc::AllocError;

#[test]
fn values_are_kept_however_many(rt: HostRuntime) -> Result<(), AllocError> {
    let alloc = rt.alloc();
    let numbers = [7, 3, 5, 3, 9].map(Value::new);
    for count in 0..=numbers.len() {
        let values = Values::from_slice(alloc, &numbers[..count])?;
        assert!(rt; values.as_slice() == &numbers[..count]);
        assert!(rt; values.clone()?.as_slice() == &numbers[..count]);
    }
    Ok(())
}

#[test]
fn names_are_kept_however_long(rt: HostRuntime) -> Result<(), AllocError> {
    let alloc = rt.alloc();
    let letters = b"abcdefghijklmnopqrstuvwxyz0123456789".as_slice();
    for length in 0..=letters.len() {
        let name = NameBytes::from_slice(alloc, &letters[..length])?;
        assert!(rt; name.as_slice() == &letters[..length]);
        assert!(rt; name.clone()?.as_slice() == &letters[..length]);
    }
    Ok(())
}
