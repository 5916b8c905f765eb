//! Tests of the workers: of the table that they share, of the pass and of printing. They stand in a crate of their own,
//! since a crate with tests is proved once more with them.
#![tactic(auto)]

#[cfg(test)]
mod passing;
#[cfg(test)]
mod printing;
#[cfg(test)]
mod seats;
#[cfg(test)]
mod turns;
