//! Functions and modules of CLIF.
//!
//! Contracts see a function as lists over natural numbers (`specs/Module.antt`).
#![tactic(auto)]

mod copies;
mod declarations;
mod func;
mod heads;
mod index;
mod instructions;
mod module;
mod names;
mod numbers;
mod places;
mod room;
mod signatures;
mod size;
mod values;

pub use containers::{Boxed, Few, List, NameBytes, are_same_bytes};
pub use declarations::{Callee, SlotDecl};
pub use func::{Blocks, Func, Insts};
pub use heads::Heads;
pub use instructions::{Access, Arg, BlockCall, Flags, Inst, InstData};
pub use module::Module;
pub use names::FuncName;
pub use numbers::{Block, FuncRef, SigRef, Slot, Value};
pub use places::{Item, Point};
pub use room::Room;
pub use signatures::{Conv, Ext, Param, Purpose, Sig, Ty};
pub use size::GREATEST_SIZE;
pub use values::Values;
