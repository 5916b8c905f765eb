//! What takes text piece by piece: a sink, memory, or a count of the bytes.
#![tactic(auto)]

mod output;
mod plain_outputs;
mod sink_output;
mod waiting;

pub use output::{Output, put_number, put_numbered};
pub use plain_outputs::{LengthOutput, MemoryOutput};
pub use sink_output::SinkOutput;
