//! What a report tells of each command. A command that stands in the text again is not carried out again.
ghost use Rattle.std.specs.Prelude.{◌≡◌, ℕ, List, map, Option, IfSome, OnOk};
ghost use Rattle.ir_core.specs.Module.{Module};
ghost use Rattle.test_directives.specs.Tests as defined;
ghost use Rattle.test_directives.specs.Views.{command_of, function_of};
ghost use Rattle.filetest.specs.Carrying.{IsCarriedOut};
ghost use Rattle.filetest.specs.Limits.{IsLimitedCommand};
ghost use Rattle.filetest.specs.Placing.{ArePlaced};
ghost use Rattle.filetest.specs.Sections.{command_by, AreSections};

use crate::inlining::check_inlined;
use crate::report::Writer;
use crate::runs::check_runs;
use crate::texts::check_lines;
use crate::verifying::check_faults;
use inline_finish::Policy;
use ir_check::Checked;
use std::alloc::{AllocError, Global};
use std::collections::BTreeMap;
use test_directives::{Command, FunctionTests};

/// Carries out a command, and tells of each check.
fn carry_out(
    alloc: Global,
    command: &Command,
    checked: &Checked,
    tests: &[FunctionTests],
    faults: &[Option<u32>],
    out: &mut Writer,
) -> Result<(), AllocError>
    requires limited { IsLimitedCommand (command_of command.now) }
    requires placed { ArePlaced checked.now tests.now }
    ensures { OnOk result (IsCarriedOut out.old out.new checked.now (map function_of tests.now) faults.now
        (command_of command.now)) }
{
    match command {
        Command::Cat => check_lines(alloc, command, checked.module(), tests, out),
        Command::Verifier => check_faults(alloc, command, faults, tests, out),
        Command::Interpret => check_runs(alloc, command, checked, tests, out),
        Command::Run => check_runs(alloc, command, checked, tests, out),
        Command::Inline {
            precise,
            callee_size,
            caller_size,
        } => {
            let policy = Policy {
                callee_size: *callee_size,
                caller_size: *caller_size,
            };
            check_inlined(alloc, command, checked, *precise, policy, tests, out)
        }
        Command::Other(_) => out.skip(command),
    }
}

/// A command that is carried out.
#[derive(Clone, Copy, PartialEq, Eq, PartialOrd, Ord)]
pub(crate) enum Kind {
    Cat,
    Verifier,
    Interpret,
    Run,
    Inline {
        precise: bool,
        callee_size: usize,
        caller_size: usize,
    },
}

/// The kind of a command. `None` where it is left out.
fn kind_of(command: &Command) -> Option<Kind>
    ensures { IfSome result (λ kind. command_by kind ≡ command_of command.now) }
{
    match command {
        Command::Cat => Some(Kind::Cat),
        Command::Verifier => Some(Kind::Verifier),
        Command::Interpret => Some(Kind::Interpret),
        Command::Run => Some(Kind::Run),
        Command::Inline {
            precise,
            callee_size,
            caller_size,
        } => Some(Kind::Inline {
            precise: *precise,
            callee_size: *callee_size,
            caller_size: *caller_size,
        }),
        Command::Other(_) => None,
    }
}

/// What was told of each kind of command that was carried out.
#[derive(Drop)]
pub(crate) struct Sections {
    pub(crate) told: BTreeMap<Kind, Writer>,
}

impl Sections {
    /// Nothing was carried out yet.
    pub(crate) fn new(alloc: Global) -> Sections
        ensures { (m : Module) (ts : List defined.FunctionTests) (faults : List (Option ℕ)) → AreSections m ts faults result }
    {
        Sections {
            told: BTreeMap::new(alloc),
        }
    }

    /// Carries out a command and tells of each check, or tells again what was told of an equal command.
    pub(crate) fn tell(
        &mut self,
        alloc: Global,
        command: &Command,
        checked: &Checked,
        tests: &[FunctionTests],
        faults: &[Option<u32>],
        out: &mut Writer,
    ) -> Result<(), AllocError>
        requires limited { IsLimitedCommand (command_of command.now) }
        requires placed { ArePlaced checked.now tests.now }
        requires kept { AreSections checked.now (map function_of tests.now) faults.now self.old }
        ensures told { OnOk result (IsCarriedOut out.old out.new checked.now (map function_of tests.now) faults.now
            (command_of command.now)) }
        ensures kept { OnOk result (AreSections checked.now (map function_of tests.now) faults.now self.new) }
    {
        let Some(kind) = kind_of(command) else {
            return carry_out(alloc, command, checked, tests, faults, out);
        };
        if let Some(section) = self.told.get(&kind) {
            return out.append(section);
        }
        let mut section = Writer::new(alloc);
        carry_out(alloc, command, checked, tests, faults, &mut section)?;
        out.append(&section)?;
        self.told.insert(kind, section)?;
        Ok(())
    }
}
