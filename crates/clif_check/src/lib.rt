//! The accepted module of a text, or the text's first fault.
#![tactic(auto)]

mod checking;
mod comparing;
mod declarations;
mod heads;
pub mod laws;
mod parts;
mod stretches;

pub use checking::{check_func, check_raw, check_text, check_text_alone};
pub use declarations::{Named, declare_all};
pub use heads::check_heads;
