//! Where bytes come from and where they go: sources and sinks that count their faults, reading to the end, writing a
//! whole piece, and the gate at which a worker announces what it starts.
#![tactic(auto)]

mod adapters;
mod memory;
mod traits;
mod whole;

pub use adapters::{StdSink, StdSource};
pub use memory::{MemSink, MemSource, NullSink, SureSource};
pub use traits::{Failed, Gate, NoGate, Sink, Source};
pub use whole::{ReadErr, put, read_whole};
