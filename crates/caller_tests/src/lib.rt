//! Tests of what a caller becomes where a call of each kind is replaced, in two steps and in one. They stand in a crate
//! of their own, since a crate with tests is proved once more with them, and since their texts are read and checked.
#![tactic(auto)]

#[cfg(test)]
mod sites;
#[cfg(test)]
mod splices;
