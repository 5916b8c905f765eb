//! Reading the tokens of a text one after the other: why it stops, numbers, types, and items behind commas.
#![tactic(auto)]

mod commas;
mod kinds;
mod lists;
mod numbers;
mod raw;
mod reader;
mod stop;
mod types;

pub use commas::{Items, read_few_items, read_items, read_more_items};
pub use kinds::is_comment;
pub use lists::{start_list, start_list_in_room};
pub use numbers::{read_number, read_offset};
pub use raw::{RawName, RawNumber, RawOpcode, RawText};
pub use reader::Reader;
pub use stop::Stop;
pub use types::{read_i64_suffix, read_opt_i64_suffix, read_opt_suffix, read_suffix, read_type};
