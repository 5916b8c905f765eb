//! What a table is for.
use inline_finish::Policy;
use ir_core::Module;
use std::snapshot::Snapshot;

/// What a table is for: the functions whose bodies are finished, and the policy by which they are.
#[derive(Drop)]
pub struct Job {
    pub functions: Snapshot<Module>,
    pub policy: Policy,
}
