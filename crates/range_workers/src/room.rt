//! Room for what is read.

use std::alloc::Global;

/// How much memory a stretch of a text is read into, about.
const ROOM: usize = 1_048_576;

/// Has the allocator take room for a stretch at once: a block is asked for and let go, and what is read then goes
/// there. The C library takes memory for a thread from the system by a few kilobytes at a time otherwise, and all
/// threads wait each time. Where there is no such room nothing is lost.
pub fn make_room(alloc: Global) {
    let _ = Vec::<u8>::with_capacity(alloc, ROOM);
}
