//! Checks of what the pass makes of a module.
ghost use Rattle.std.specs.Prelude.{◌≡◌, ◌<◌, map, IfOk, OnOk};
ghost use Rattle.ir_semantics.specs.Canon.{SameUpToNumbering};
ghost use Rattle.inline_finish.specs.Building.{policy_of, IsLimited};
ghost use Rattle.inline_pass.specs.Finished as defined;
ghost use Rattle.inline_pass.specs.Inlined.{inlined};
ghost use Rattle.test_directives.specs.Views.{command_of, function_of};
ghost use Rattle.filetest.specs.Checks.{each, inlined_check};
ghost use Rattle.filetest.specs.Telling.{Tells};

use crate::report::Writer;
use crate::texts::{check_lines, check_outputs};
use inline_finish::{Passed, Policy};
use ir_check::Checked;
use module_pass::pass;
use std::alloc::{AllocError, Global};
use std::marker::Brand;
use std::sync::ledger::{Blank, Ledger};
use step_counter::Steps;
use test_directives::{Command, FunctionTests};

/// What the pass makes of an accepted module, with a counter that is opened here.
fn passed_counted<L: Ledger>(
    alloc: Global,
    checked: &Checked,
    policy: Policy,
    blank: Blank,
) -> Result<Passed, AllocError>
    requires limited { IsLimited policy }
    requires blank { (blank.name ≡ L.name) × (blank.parts ≡ L.parts) × (0 < blank.parts) }
    ensures finished { IfOk result
        (λ passed. SameUpToNumbering (defined.passed (policy_of policy) checked.now) passed.«module») }
    ensures by_function { IfOk result (λ passed.
        passed.inlined_by_function.items ≡ map (inlined (policy_of policy) checked.now) checked.now) }
{
    let mut steps: Steps<L> = Steps::open(blank);
    pass(alloc, checked, policy, &mut steps)
}

/// What the pass makes of an accepted module.
fn passed(alloc: Global, checked: &Checked, policy: Policy) -> Result<Passed, AllocError>
    requires limited { IsLimited policy }
    ensures finished { IfOk result
        (λ passed. SameUpToNumbering (defined.passed (policy_of policy) checked.now) passed.«module») }
    ensures by_function { IfOk result (λ passed.
        passed.inlined_by_function.items ≡ map (inlined (policy_of policy) checked.now) checked.now) }
{
    passed_counted::<Brand>(alloc, checked, policy, Blank::new(1))
}

/// Checks what the pass makes of an accepted module.
pub(crate) fn check_inlined(
    alloc: Global,
    command: &Command,
    checked: &Checked,
    precise: bool,
    policy: Policy,
    tests: &[FunctionTests],
    out: &mut Writer,
) -> Result<(), AllocError>
    requires limited { IsLimited policy }
    ensures { OnOk result (Tells out.old out.new (command_of command.now) (each
        (inlined_check precise (policy_of policy) checked.now) checked.now (map function_of tests.now))) }
{
    let passed = passed(alloc, checked, policy)?;
    let module = passed.module.module();
    if precise {
        check_outputs(
            alloc,
            command,
            module,
            passed.inlined_by_function.as_slice(),
            tests,
            out,
        )
    } else {
        check_lines(alloc, command, module, tests, out)
    }
}
