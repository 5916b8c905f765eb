//! Tests of the crates that stand on no other: operations on bits, tokens, exception tables, debug tags, sources and
//! sinks, the board machine, numbers that workers draw. They stand in a crate of their own, since a crate with tests is
//! proved once more with them.
#![tactic(auto)]

#[cfg(test)]
mod board;
#[cfg(test)]
mod drawing;
#[cfg(test)]
mod flow;
#[cfg(test)]
mod lexing;
#[cfg(test)]
mod narrow_vectors;
#[cfg(test)]
mod operations;
#[cfg(test)]
mod tables;
#[cfg(test)]
mod tags;
#[cfg(test)]
mod wide_vectors;
