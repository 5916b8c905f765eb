//! Words of the command line that are no text.

use std::alloc::{AllocError, Global};
use std::env::Env;

/// The most bytes that the system gives a word.
const LONGEST: usize = 131_072;

/// The number of the first word that is not UTF-8, counted from 0 for the program's name; asked where there is one.
///
/// # Errors
///
/// Memory for one word ran out.
pub(crate) fn first_bad_word<E: Env>(env: &E, alloc: Global) -> Result<usize, AllocError> {
    let mut room = vec![in alloc; 0u8; LONGEST]?;
    for number in 0..usize::MAX {
        match env.arg(number, room.as_mut_slice()) {
            Ok(length) if str::from_utf8(&room[..length]).is_ok() => {}
            _ => return Ok(number),
        }
    }
    Ok(usize::MAX)
}
