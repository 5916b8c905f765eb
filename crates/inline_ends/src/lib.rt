//! A call that ends its block replaced by its callee's body.
#![tactic(auto)]

mod copying;
mod numbers;
mod placing;
mod prepare;
mod prepared;
mod try_body;
mod try_numbers;
mod try_prepare;
mod trying;

pub use copying::copy_blocks;
pub use numbers::number_blocks;
pub use placing::put_last_body;
pub use prepare::prepare_tail;
pub use prepared::put_last;
pub use try_body::{MadeBlocks, OpenBlock, try_blocks};
pub use try_numbers::number_try_blocks;
pub use try_prepare::prepare_try;
pub use trying::{TrySite, is_plain_call, tried_line};
