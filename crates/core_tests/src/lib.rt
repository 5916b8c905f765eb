//! Tests of functions and modules in memory. They stand in a crate of their own, since a crate with tests is proved
//! once more with them.
#![tactic(auto)]

#[cfg(test)]
mod functions;
#[cfg(test)]
mod reading;
#[cfg(test)]
mod values;
