//! Reading modules of CLIF, by the calling thread.
#![tactic(auto)]

mod attributes;
mod declarations;
mod heads;
pub mod laws;
mod lines;
mod modules;
mod raw;
mod room;
mod signatures;
mod tags;
mod texts;

pub use declarations::read_func_name;
pub use modules::{read_all_functions, read_function, read_whole_module};
pub use raw::{
    RawAttribute, RawBlock, RawBlockParam, RawCalleeSig, RawDecl, RawFuncName, RawFunction,
    RawLine, RawModule, RawParam, RawSignature, RawTag,
};
pub use texts::{read_raw_alone, read_text_alone};
