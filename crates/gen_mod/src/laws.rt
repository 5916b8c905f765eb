//! Laws of generated modules: functions without a body, each of which has its law as its contract.
ghost use Rattle.std.specs.Prelude.{ℕ, ◌≤◌, ◌^◌};
ghost use Rattle.ir_core.specs.WellFormed.{IsModule};
ghost use Rattle.ir_text.specs.Writable.{Writable};
ghost use Rattle.ir_semantics.specs.Accepted.{Accepted};
ghost use Rattle.gen_mod.specs.Generated.{generated};

/// Whatever the number and the count of functions: what is generated is a module, every rule accepts it, and it has a
/// text.
pub fn generated_is_accepted()
    ensures module { (number count : ℕ) → count ≤ 2 ^ 64 → IsModule (generated number count) }
    ensures accepted { (number count : ℕ) → Accepted (generated number count) }
    ensures writable { (number count : ℕ) → count ≤ 65536 → Writable (generated number count) }
{}
