//! The canonical text of a text's module, printed while the text is read and checked.
#![tactic(auto)]

mod functions;
mod making;
mod stretches;
mod written;

pub use making::make_canonical_text;
pub use written::CanonicalText;
