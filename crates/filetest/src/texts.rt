//! Checks of canonical texts.
ghost use Rattle.std.specs.Prelude.{◌≡◌, ◌<◌, [], ◌∷◌, length, map, slice_get, IfOk, IfSome, OnOk};
ghost use Rattle.ir_text.specs.Numbering.{numberings_of};
ghost use Rattle.ir_text.specs.Text.{function_text_of};
ghost use Rattle.test_directives.specs.Views.{command_of, function_of, line_test_of};
ghost use Rattle.filetest.specs.Checks as checks;
ghost use Rattle.filetest.specs.LineTests as lines;
ghost use Rattle.filetest.specs.Outputs.{line_check_of, line_checks, output_check_of, output_checks};
ghost use Rattle.filetest.specs.Telling.{Tells};
ghost use Rattle.filetest.specs.Views.{failure_of};

use crate::line_checks::lines_failure;
use crate::lines::{difference, split_lines};
use crate::report::{Pair, Writer};
use clif_numbers::{Numbers, numbering};
use clif_print::func_text;
use ir_core::{List, Module};
use std::alloc::{AllocError, Global};
use test_directives::{Command, FunctionTests, LineTest};

/// The failure of tests of lines over the canonical text of a function.
fn text_failure(
    alloc: Global,
    module: &Module,
    numbers: &Numbers,
    at: usize,
    tests: &[LineTest],
) -> Result<Option<Pair>, AllocError>
    requires numbers { numbers.now ≡ numberings_of «module».now }
    requires there { at < length «module».now }
    ensures { IfOk result (λ failure. IfSome (slice_get «module».now at)
        (λ f. failure_of failure
        ≡ lines.failure [] (lines.split_lines (function_text_of f)) (map line_test_of tests.now))) }
{
    let text = func_text(alloc, module, numbers, at)?;
    let lines = split_lines(alloc, text.as_slice())?;
    lines_failure(alloc, tests, lines.as_slice())
}

/// Checks the lines of the canonical text of a function, where it has tests of lines.
fn check_function_lines(
    alloc: Global,
    command: &Command,
    module: &Module,
    numbers: &Numbers,
    at: usize,
    tests: &FunctionTests,
    out: &mut Writer,
) -> Result<(), AllocError>
    requires numbers { numbers.now ≡ numberings_of «module».now }
    requires there { at < length «module».now }
    ensures { OnOk result (IfSome (slice_get «module».now at) (λ f. Tells out.old out.new (command_of command.now)
        (line_check_of (function_text_of f) (function_of tests.now)))) }
{
    if tests.lines.is_empty() {
        return Ok(());
    }
    let failure = text_failure(alloc, module, numbers, at, tests.lines.as_slice())?;
    out.check(command, tests.name.as_slice(), tests.line, failure)?;
    Ok(())
}

/// Checks the lines of the canonical text of each function that has tests of lines.
pub(crate) fn check_lines(
    alloc: Global,
    command: &Command,
    module: &Module,
    tests: &[FunctionTests],
    out: &mut Writer,
) -> Result<(), AllocError>
    ensures { OnOk result (Tells out.old out.new (command_of command.now)
        (line_checks (map function_text_of «module».now) (map function_of tests.now))) }
{
    let numbers = numbering(alloc, module)?;
    for i in 0..module.len().min(tests.len()) {
        check_function_lines(alloc, command, module, &numbers, i, &tests[i], out)?;
    }
    Ok(())
}

/// `(no functions inlined into %f)`
fn untouched_line(alloc: Global, name: &[u8]) -> Result<Vec<u8>, AllocError>
    ensures { IfOk result (λ line. line.items ≡ checks.untouched_line name.now) }
{
    let mut line = Vec::from_slice(alloc, b"(no functions inlined into ")?;
    line.extend_from_slice(name)?;
    line.extend_from_slice(b")")?;
    Ok(line)
}

/// The first difference of the expected lines from those of a function, into which so many sites were inlined.
fn output_failure(
    alloc: Global,
    module: &Module,
    numbers: &Numbers,
    at: usize,
    sites: u64,
    name: &[u8],
    expected: &[List<u8>],
) -> Result<Option<Pair>, AllocError>
    requires numbers { numbers.now ≡ numberings_of «module».now }
    requires there { at < length «module».now }
    ensures { IfOk result (λ failure. IfSome (slice_get «module».now at) (λ f. failure_of failure
        ≡ lines.difference expected.now (checks.output_lines sites name.now (function_text_of f)))) }
{
    if sites == 0 {
        let line = untouched_line(alloc, name)?;
        let mut lines = Vec::new(alloc);
        lines.push(line.as_slice())?;
        return difference(alloc, expected, lines.as_slice());
    }
    let text = func_text(alloc, module, numbers, at)?;
    let lines = split_lines(alloc, text.as_slice())?;
    difference(alloc, expected, lines.as_slice())
}

/// Compares the whole text of a function, into which so many sites were inlined, with the comments behind it.
fn check_function_output(
    alloc: Global,
    command: &Command,
    module: &Module,
    numbers: &Numbers,
    at: usize,
    sites: u64,
    tests: &FunctionTests,
    out: &mut Writer,
) -> Result<(), AllocError>
    requires numbers { numbers.now ≡ numberings_of «module».now }
    requires there { at < length «module».now }
    ensures { OnOk result (IfSome (slice_get «module».now at) (λ f. Tells out.old out.new (command_of command.now)
        (output_check_of sites (function_text_of f) (function_of tests.now) ∷ []))) }
{
    let name = tests.name.as_slice();
    let failure = output_failure(
        alloc,
        module,
        numbers,
        at,
        sites,
        name,
        tests.expected.as_slice(),
    )?;
    out.check(command, name, tests.line, failure)?;
    Ok(())
}

/// Compares the whole text of each function after the pass with the comments behind it, by how many sites were inlined
/// into it.
pub(crate) fn check_outputs(
    alloc: Global,
    command: &Command,
    module: &Module,
    sites: &[u64],
    tests: &[FunctionTests],
    out: &mut Writer,
) -> Result<(), AllocError>
    ensures { OnOk result (Tells out.old out.new (command_of command.now)
        (output_checks sites.now (map function_text_of «module».now) (map function_of tests.now))) }
{
    let numbers = numbering(alloc, module)?;
    for i in 0..module.len().min(sites.len()).min(tests.len()) {
        check_function_output(
            alloc, command, module, &numbers, i, sites[i], &tests[i], out,
        )?;
    }
    Ok(())
}
