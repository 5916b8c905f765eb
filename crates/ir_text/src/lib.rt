//! The canonical text of a module, and which modules have one that reads as them again.
#![tactic(auto)]
