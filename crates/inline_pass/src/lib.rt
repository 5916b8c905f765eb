//! The pass: every function of a module with the bodies of its callees, as a policy of sizes allows.
#![tactic(auto)]

pub mod laws;
