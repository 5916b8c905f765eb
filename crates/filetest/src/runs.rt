//! Checks of runs.
ghost use Rattle.std.specs.Prelude.{◌≡◌, ◌++◌, codes, map, option_map, replicate, true, All, IfOk, None, OnOk};
ghost use Rattle.ir_core.specs.Lookup.{param_types};
ghost use Rattle.interp.specs.Outcome.{end_of, event_of, outcome_of};
ghost use Rattle.ir_text.specs.TextTree.{spelled};
ghost use Rattle.program_run.specs.RunText.{event_text};
ghost use Rattle.test_directives.specs.Views.{command_of, expectation_of, function_of, run_of, wanted_of};
ghost use Rattle.filetest.specs.Checks as checks;
ghost use Rattle.filetest.specs.Ends as ends;
ghost use Rattle.filetest.specs.Expecting as expecting;
ghost use Rattle.filetest.specs.LineTests as lines;
ghost use Rattle.filetest.specs.Placing.{ArePlaced, IsPlacedIn};
ghost use Rattle.filetest.specs.Refusing.{is_of_call};
ghost use Rattle.filetest.specs.Telling.{Tells};
ghost use Rattle.filetest.specs.Views.{failure_of};

use crate::lines::difference;
use crate::report::{Pair, Writer};
use byte_store::Memory;
use interp::fit_values;
use ir_check::Checked;
use ir_core::{List, Param};
use program_run::{End, Event, LinkedModule, Outcome, RunErr, end_line, event_line, link};
use std::alloc::{AllocError, Global};
use test_directives::{Command, Expectation, FunctionTests, RunTest, Wanted};

/// How many zero bytes a run's memory has.
#[tactic(auto, unfolding(crate::specs::Ends::memory_size))]
fn memory_size() -> usize
    ensures { result ≡ ends.memory_size }
{
    65_536
}

/// How many steps a run makes at most.
#[tactic(auto, unfolding(crate::specs::Ends::step_bound))]
fn step_bound() -> u64
    ensures { result ≡ ends.step_bound }
{
    1_000_000
}

/// The end that is expected of a run with results of these types. `None` where numbers do not fit them.
fn expected_end(
    alloc: Global,
    types: &[Param],
    expectation: &Expectation,
) -> Result<Option<End>, AllocError>
    ensures { IfOk result (λ end. option_map end_of end
        ≡ ends.expected_end (param_types types.now) (expectation_of expectation.now)) }
{
    match expectation {
        Expectation::Values(numbers) => {
            let mut values = Vec::new(alloc);
            if fit_values(types, numbers.as_slice(), &mut values)? {
                Ok(Some(End::Returned(List::from_vec(values))))
            } else {
                Ok(None)
            }
        }
        Expectation::Trap(code) => Ok(Some(End::Trapped(*code))),
        Expectation::Throw { tag, p0, p1 } => Ok(Some(End::Threw {
            tag: *tag,
            p0: *p0,
            p1: *p1,
        })),
    }
}

/// The line of an expected end.
fn expected_line(
    alloc: Global,
    types: &[Param],
    expectation: &Expectation,
) -> Result<Option<Vec<u8>>, AllocError>
    ensures { IfOk result (λ line. option_map (λ l. l.items) line
        ≡ expecting.expected_line (param_types types.now) (expectation_of expectation.now)) }
{
    match expected_end(alloc, types, expectation)? {
        None => Ok(None),
        Some(end) => Ok(Some(end_line(alloc, &end)?)),
    }
}

/// Whether a run has returned.
fn has_returned(end: &End) -> bool
    ensures { result ≡ ends.has_returned (end_of end.now) }
{
    match end {
        End::Returned(_) => true,
        _ => false,
    }
}

/// `not ` and a line.
fn not_line(alloc: Global, line: &[u8]) -> Result<Vec<u8>, AllocError>
    ensures { IfOk result (λ text. text.items ≡ codes "not " ++ line.now) }
{
    let mut text = Vec::from_slice(alloc, b"not ")?;
    text.extend_from_slice(line)?;
    Ok(text)
}

/// The failure of the end, where it is not as wanted.
fn end_failure(
    alloc: Global,
    types: &[Param],
    wanted: &Wanted,
    end: &End,
) -> Result<Option<Pair>, AllocError>
    ensures { IfOk result (λ failure. failure_of failure
        ≡ ends.end_failure (param_types types.now) (wanted_of wanted.now) (end_of end.now)) }
{
    let got = end_line(alloc, end)?;
    let returned = has_returned(end);
    match wanted {
        Wanted::Return => {
            if returned {
                return Ok(None);
            }
            let expected = Vec::from_slice(alloc, b"returned")?;
            Ok(Some(Pair { expected, got }))
        }
        Wanted::Equal(expectation) => {
            let Some(expected) = expected_line(alloc, types, expectation)? else {
                return Ok(None);
            };
            if expected.as_slice() == got.as_slice() {
                return Ok(None);
            }
            Ok(Some(Pair { expected, got }))
        }
        Wanted::Unequal(expectation) => {
            let Some(line) = expected_line(alloc, types, expectation)? else {
                return Ok(None);
            };
            if returned && line.as_slice() != got.as_slice() {
                return Ok(None);
            }
            let expected = not_line(alloc, line.as_slice())?;
            Ok(Some(Pair { expected, got }))
        }
    }
}

/// The lines of events.
fn event_lines(alloc: Global, events: &[Event]) -> Result<Vec<Vec<u8>>, AllocError>
    ensures { IfOk result (λ found. map (λ l. l.items) found.items
        ≡ map (λ e. spelled (event_text e)) (map event_of events.now)) }
{
    let mut found = Vec::new(alloc);
    for i in 0..events.len() {
        found.push(event_line(alloc, &events[i])?)?;
    }
    Ok(found)
}

/// Lines, lent.
fn lent<'l>(alloc: Global, lines: &'l [Vec<u8>]) -> Result<Vec<&'l [u8]>, AllocError>
    ensures { IfOk result (λ found. map (λ l. l.now) found.items ≡ map (λ l. l.items) lines.now) }
{
    let mut found = Vec::new(alloc);
    for i in 0..lines.len() {
        found.push(lines[i].as_slice())?;
    }
    Ok(found)
}

/// The failure of the events, where they are compared and not as wanted.
fn trace_failure(
    alloc: Global,
    trace: &[List<u8>],
    events: &[Event],
) -> Result<Option<Pair>, AllocError>
    ensures { IfOk result (λ failure. failure_of failure
        ≡ lines.difference trace.now (map (λ e. spelled (event_text e)) (map event_of events.now))) }
{
    let got = event_lines(alloc, events)?;
    let got = lent(alloc, got.as_slice())?;
    difference(alloc, trace, got.as_slice())
}

/// The failure of a run that has this outcome.
fn outcome_failure(
    alloc: Global,
    types: &[Param],
    test: &RunTest,
    outcome: &Outcome,
) -> Result<Option<Pair>, AllocError>
    ensures { IfOk result (λ failure. failure_of failure
        ≡ ends.outcome_failure (param_types types.now) (run_of test.now) (outcome_of outcome.now)) }
{
    if let Some(pair) = end_failure(alloc, types, &test.wanted, &outcome.end)? {
        return Ok(Some(pair));
    }
    match &test.trace {
        Some(trace) if !trace.is_empty() => trace_failure(
            alloc,
            trace.as_slice(),
            outcome.events.as_slice(),
        ),
        _ => Ok(None),
    }
}

/// The memory with which a run begins.
fn first_memory(alloc: Global) -> Result<Memory, AllocError>
    ensures { IfOk result (λ memory. memory ≡ replicate ends.memory_size 0) }
{
    Ok(Memory::new(vec![in alloc; 0u8; memory_size()]?))
}

/// A run that is refused has no failure, unless memory ran out.
fn refusal(err: RunErr) -> Result<Option<Pair>, AllocError>
    ensures { IfOk result (λ failure. (failure_of failure ≡ None) × (is_of_call err ≡ true)) }
{
    match err {
        RunErr::NoEntry => Ok(None),
        RunErr::BadArgs => Ok(None),
        RunErr::NoMemory => Err(AllocError),
    }
}

/// The failure of a run. A run of no function, or with numbers that are not its values, is refused as a bad directive
/// before.
fn run_failure(
    alloc: Global,
    linked: &LinkedModule<'_>,
    test: &RunTest,
) -> Result<Option<Pair>, AllocError>
    requires placed { IsPlacedIn linked.now test.now }
    ensures { IfOk result (λ failure. failure_of failure ≡ (checks.run_check linked.now (run_of test.now)).failure) }
{
    let module = linked.module();
    if test.func >= module.len() {
        return Ok(None);
    }
    let func = module.func(test.func);
    let memory = first_memory(alloc)?;
    let numbers = test.numbers.as_slice();
    match linked.run(
        alloc,
        func.name(),
        numbers,
        &test.script,
        memory,
        step_bound(),
    ) {
        Ok(outcome) => outcome_failure(alloc, func.sig().results.as_slice(), test, &outcome),
        Err(err) => refusal(err),
    }
}

/// Checks the runs of a function's comments.
fn check_function_runs(
    alloc: Global,
    command: &Command,
    linked: &LinkedModule<'_>,
    runs: &[RunTest],
    out: &mut Writer,
) -> Result<(), AllocError>
    requires placed { All (IsPlacedIn linked.now) runs.now }
    ensures { OnOk result (Tells out.old out.new (command_of command.now)
        (map (checks.run_check linked.now) (map run_of runs.now))) }
{
    for i in 0..runs.len() {
        let test = &runs[i];
        let failure = run_failure(alloc, linked, test)?;
        out.check(command, test.name.as_slice(), test.line, failure)?;
    }
    Ok(())
}

/// Checks each run of the functions of a module, which is linked once.
pub(crate) fn check_runs(
    alloc: Global,
    command: &Command,
    checked: &Checked,
    tests: &[FunctionTests],
    out: &mut Writer,
) -> Result<(), AllocError>
    requires placed { ArePlaced checked.now tests.now }
    ensures { OnOk result (Tells out.old out.new (command_of command.now)
        (checks.run_checks checked.now (map function_of tests.now))) }
{
    let linked = link(alloc, checked)?;
    for i in 0..tests.len() {
        let func = &tests[i];
        check_function_runs(alloc, command, &linked, func.runs.as_slice(), out)?;
    }
    Ok(())
}
