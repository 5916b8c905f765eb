//! Worked examples of the meaning of modules, checked by computation: runs, splices, acceptance and first faults,
//! finished bodies. Nothing stands on them.
#![tactic(auto)]
