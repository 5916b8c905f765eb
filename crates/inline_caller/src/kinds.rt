//! The kinds of call.
ghost use Rattle.std.specs.Prelude.{◌≡◌};
ghost use Rattle.ir_core.specs.Viewed.{instruction_of};
ghost use Rattle.inline_caller.specs.Replacing.{kind_of_call};

use ir_core::Inst;

/// How a call goes on: behind it in its block, nowhere in its function, or in its normal target.
#[derive(Clone, Copy, PartialEq, Eq)]
pub enum CallKind {
    Plain,
    Tail,
    Try,
}

/// The kind of a call.
pub fn call_kind(inst: &Inst) -> CallKind
    ensures { result ≡ kind_of_call (instruction_of inst.now) }
{
    match inst {
        Inst::ReturnCall { .. } => CallKind::Tail,
        Inst::ReturnCallIndirect { .. } => CallKind::Tail,
        Inst::TryCall { .. } => CallKind::Try,
        Inst::TryCallIndirect { .. } => CallKind::Try,
        _ => CallKind::Plain,
    }
}
