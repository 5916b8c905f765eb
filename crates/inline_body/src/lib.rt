//! A call of a function replaced by the function's body.
#![tactic(auto)]

mod appending;
mod blocks;
mod branches;
mod copies;
mod incoming;
mod inserting;
pub mod laws;
mod lines;
mod names;
mod numbers;
mod parts;
mod placing;
mod prepare;
mod prepared;
mod results;
mod site;
mod tables;

pub use appending::append_to_blocks;
pub use blocks::{BlockLines, InlinedBlocks, inline_blocks};
pub use copies::{copy_inst, copy_tags};
pub use incoming::Incoming;
pub use inserting::insert_blocks;
pub use lines::{copy_line, copy_lines, inline_lines, jump, line_with};
pub use names::Names;
pub use numbers::renumber_values;
pub use parts::{SiteParts, call_args, site_parts};
pub use placing::put_body;
pub use prepare::{body_room, prepare_body};
pub use prepared::{PreparedBody, put_within};
pub use results::{NewResults, new_types, number_results, result_types};
pub use site::{Opened, append_lines, open};
pub use tables::number_blocks;
