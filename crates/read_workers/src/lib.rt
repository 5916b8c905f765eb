//! Reading a module by several workers at once: from its bytes, and from the list of its tokens.
#![tactic(auto)]

mod text_ranges;
mod token_ranges;

pub use text_ranges::{
    STRETCH, find_front_end, find_stretch_end, read_front, read_text, read_text_by,
    read_text_ranges,
};
pub use token_ranges::{read_raw, read_raw_by, read_token_ranges};
