//! Checks of the first fault of each function.
ghost use Rattle.std.specs.Prelude.{◌≡◌, ◌<◌, ◌≤◌, length, map, option_map, IfErr, IfOk, OnOk};
ghost use Rattle.clif_lex.specs.Places.{line_at};
ghost use Rattle.clif_meaning.specs.Meaning.{HasBlocks};
ghost use Rattle.clif_meaning.specs.Reads.{alone};
ghost use Rattle.test_directives.specs.Views.{command_of, function_of};
ghost use Rattle.filetest.specs.declared.testing.TestErr.TheVariants.{NoMemory};
ghost use Rattle.filetest.specs.Checks as checks;
ghost use Rattle.filetest.specs.FaultLines.{AreFaultLines, AreFaultSpots, IsFaultSpot};
ghost use Rattle.filetest.specs.Ends.{unless};
ghost use Rattle.filetest.specs.LineTests.{pair};
ghost use Rattle.filetest.specs.Telling.{Tells};
ghost use Rattle.filetest.specs.Views.{failure_of};

use crate::report::{Pair, Writer};
use crate::testing::TestErr;
use clif_check::check_func;
use clif_lex::TextErr;
use clif_read::RawModule;
use std::alloc::{AllocError, Global};
use test_directives::{Command, FunctionTests};

/// The spot of the first fault of a function, taken as a module by itself; `None` where it is accepted.
fn fault_spot(alloc: Global, raw: &RawModule, func: usize) -> Result<Option<usize>, TestErr>
    requires blocks { HasBlocks raw.now }
    requires there { func < length raw.now.functions }
    ensures spot { IfOk result (IsFaultSpot (alone raw.now func)) }
    ensures memory { IfErr result (λ e. e ≡ NoMemory) }
{
    match check_func(alloc, raw, func) {
        Ok(_) => Ok(None),
        Err(TextErr::Fault { spot, .. }) => Ok(Some(spot)),
        Err(TextErr::NoMemory) => Err(TestErr::NoMemory),
    }
}

/// The spots of the first faults of the functions, each taken as a module by itself. No function is copied.
fn fault_spots(alloc: Global, raw: &RawModule) -> Result<Vec<Option<usize>>, TestErr>
    requires { HasBlocks raw.now }
    ensures spots { IfOk result (λ spots. AreFaultSpots raw.now spots.items) }
    ensures memory { IfErr result (λ e. e ≡ NoMemory) }
{
    let mut spots = Vec::new(alloc);
    for func in 0..raw.functions.as_slice().len() {
        spots.push(fault_spot(alloc, raw, func)?)?;
    }
    Ok(spots)
}

/// The line of a byte of the text, further on than another byte, whose line is given.
fn line_from(text: &[u8], at: usize, line: u32, spot: usize) -> u32
    requires short { length text.now ≤ 4294967294 }
    requires ordered { at ≤ spot }
    requires within { spot ≤ length text.now }
    requires known { line ≡ line_at text.now at }
    ensures { result ≡ line_at text.now spot }
{
    let mut line = line;
    for i in at..spot {
        if text[i] == b'\n' {
            line += 1;
        }
    }
    line
}

/// The lines of the spots. Takes time linear in the text where the spots stand in order, as those of functions do.
fn lines_of_spots(
    alloc: Global,
    text: &[u8],
    spots: &[Option<usize>],
) -> Result<Vec<Option<u32>>, AllocError>
    requires short { length text.now ≤ 4294967294 }
    ensures { IfOk result (λ lines. lines.items ≡ map (option_map (line_at text.now)) spots.now) }
{
    let mut lines = Vec::new(alloc);
    let mut at = 0;
    let mut line = 1;
    for i in 0..spots.len() {
        match spots[i] {
            None => lines.push(None)?,
            Some(spot) => {
                let until = spot.min(text.len());
                if until < at {
                    at = 0;
                    line = 1;
                }
                line = line_from(text, at, line, until);
                at = until;
                lines.push(Some(line))?;
            }
        }
    }
    Ok(lines)
}

/// The line of the first fault of each function of a text, taken as a module by itself. Takes time linear in the text,
/// but for logarithms.
pub(crate) fn fault_lines(
    alloc: Global,
    text: &[u8],
    raw: &RawModule,
) -> Result<Vec<Option<u32>>, TestErr>
    requires short { length text.now ≤ 4294967294 }
    requires blocks { HasBlocks raw.now }
    ensures lines { IfOk result (λ lines. AreFaultLines text.now raw.now lines.items) }
    ensures memory { IfErr result (λ e. e ≡ NoMemory) }
{
    let spots = fault_spots(alloc, raw)?;
    Ok(lines_of_spots(alloc, text, spots.as_slice())?)
}

/// `line 7` or `accepted`
fn shown_line(alloc: Global, line: Option<u32>) -> Result<Vec<u8>, AllocError>
    ensures { IfOk result (λ text. text.items ≡ checks.shown_fault line) }
{
    match line {
        None => Vec::from_slice(alloc, b"accepted"),
        Some(line) => {
            let mut buffer = itoa::Buffer::new();
            let mut text = Vec::from_slice(alloc, b"line ")?;
            text.extend_from_slice(buffer.format(line).as_bytes())?;
            Ok(text)
        }
    }
}

/// Whether two faults stand on one line, or there is none.
fn is_same_line(a: Option<u32>, b: Option<u32>) -> bool
    ensures { result ≡ checks.same_fault a b }
{
    match (a, b) {
        (None, None) => true,
        (Some(a), Some(b)) => a == b,
        _ => false,
    }
}

/// The failure of a function whose first fault is not where it is expected.
fn fault_failure(
    alloc: Global,
    expected: Option<u32>,
    got: Option<u32>,
) -> Result<Option<Pair>, AllocError>
    ensures { IfOk result (λ failure. failure_of failure ≡ unless (checks.same_fault expected got)
        (pair (checks.shown_fault expected) (checks.shown_fault got))) }
{
    if is_same_line(expected, got) {
        return Ok(None);
    }
    let expected = shown_line(alloc, expected)?;
    let got = shown_line(alloc, got)?;
    Ok(Some(Pair { expected, got }))
}

/// Compares the first fault of each function with its first `error:`.
pub(crate) fn check_faults(
    alloc: Global,
    command: &Command,
    faults: &[Option<u32>],
    tests: &[FunctionTests],
    out: &mut Writer,
) -> Result<(), AllocError>
    ensures { OnOk result (Tells out.old out.new (command_of command.now)
        (checks.fault_checks (map function_of tests.now) faults.now)) }
{
    for i in 0..tests.len().min(faults.len()) {
        let func = &tests[i];
        let failure = fault_failure(alloc, func.error, faults[i])?;
        out.check(command, func.name.as_slice(), func.line, failure)?;
    }
    Ok(())
}
