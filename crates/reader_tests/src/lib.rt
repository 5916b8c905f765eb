//! Tests of the readers of instructions, modules, names and scripts. They stand in a crate of their own, since a crate
//! with tests is proved once more with them.
#![tactic(auto)]

#[cfg(test)]
mod declarations;
#[cfg(test)]
mod forms;
#[cfg(test)]
mod instructions;
#[cfg(test)]
mod modules;
#[cfg(test)]
mod names;
#[cfg(test)]
mod scripts;
#[cfg(test)]
mod stretches;
