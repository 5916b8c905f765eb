//! The entry of a run, by the spelling of its name.
ghost use Rattle.std.specs.Prelude.{◌≡◌, ◌≢◌, ◌++◌, ℕ, List, Some, MatchOption};
ghost use Rattle.std.specs.Bool.{Decides};
ghost use Rattle.text_output.specs.Output.{Start, Puts};
ghost use Rattle.program_run.specs.EntryName.{spelling, IsSpelledEntry, HasNoEntry};

use clif_print::put_name;
use ir_core::{FuncName, Module};
use text_output::Output;

/// An output that compares what it takes with a text. `rest` is what it still expects, and `None` once it took
/// something else. Contracts have the text as what the start says was written.
#[derive(Drop)]
struct Comparison<'t> {
    rest: Option<&'t [u8]>,
}

impl<'t> Output for Comparison<'t> {
    ghost holds = { λ start out taken. MatchOption out.rest
        ((others : List ℕ) → start.written ≢ Some (taken ++ others))
        (λ rest. start.written ≡ Some (taken ++ rest.now)) };

    fn put(&mut self, bytes: &[u8]) {
        if let Some(rest) = self.rest {
            self.rest = rest.strip_prefix(bytes);
        }
    }
}

/// Whether the name is spelled so in the canonical text.
fn is_spelled(name: &FuncName, text: &[u8]) -> bool
    ensures { Decides result (spelling name.now ≡ text.now) }
{
    let mut out = Comparison { rest: Some(text) };
    put_name(&mut out, name);
    match out.rest {
        None => false,
        Some(rest) => rest.is_empty(),
    }
}

/// The name that is spelled so in the canonical text, as `%f` or `u0:1`, where a function of the module has it. `None`
/// exactly where none has. It takes no memory, and time linear in the module's names at most.
pub fn find_entry<'m>(module: &'m Module, text: &[u8]) -> Option<&'m FuncName>
    ensures { MatchOption result (HasNoEntry «module».now text.now)
        (λ name. IsSpelledEntry «module».now text.now name.now) }
{
    for i in 0..module.len() {
        let name = module.func(i).name();
        if is_spelled(name, text) {
            return Some(name);
        }
    }
    None
}
