//! Debug tags: the list of tags that stands on a call or on a `sequence_point`.
#![tactic(auto)]

mod tags;

pub use tags::{Tag, Tags, prefixed};
