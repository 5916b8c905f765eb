//! What the comments of one function ask for.
ghost use Rattle.std.specs.Prelude.{◌≡◌, ◌<◌, ◌∷◌, [], false, is_some, length, map, All, IfErr, IfOk, IfSome, OnOk};
ghost use Rattle.host_script.specs.Script.{replies_of};
ghost use Rattle.ir_semantics.specs.Values.{value_for};
ghost use Rattle.test_directives.specs.Directives as directives;
ghost use Rattle.test_directives.specs.Names as names;
ghost use Rattle.test_directives.specs.Placing.{placed_of};
ghost use Rattle.test_directives.specs.Reading as spec;
ghost use Rattle.test_directives.specs.Tests as tests;
ghost use Rattle.test_directives.specs.Views as views;

use crate::blanks::behind;
use crate::comments::{Comment, comment_of};
use crate::directives::{Directive, Expectation, LineCheck, LineTest, Wanted};
use crate::names::spelled_name;
use crate::places::PlacedComment;
use crate::tests::{DirectiveErr, FunctionTests, RunTest};
use clif_read::{RawFunction, RawParam};
use clk_num::Bits;
use host_script::Script;
use indexmap::IndexMap;
use ir_core::List;
use std::alloc::{AllocError, Global};
use std::marker::Model;
use std::mem;

/// The functions of a text, and the first place of each name.
#[derive(Drop)]
pub(crate) struct Named<'r> {
    pub functions: &'r [RawFunction],
    pub places: IndexMap<&'r [u8], usize>,
    ghost right: { names.ArePlaces (λ k. k.now) (names.names_of functions.now) places },
}

/// Whether a number is a value of a type.
fn fits(param: &RawParam, number: i128) -> bool
    ensures { result ≡ is_some (value_for param.now.ty number) }
{
    Bits::fit(param.ty.width(), number).is_some()
}

/// Whether there are as many numbers as parameters or results, and each fits.
fn are_values(params: &[RawParam], numbers: &[i128]) -> bool
    ensures { result ≡ tests.are_values params.now numbers.now }
{
    if params.len() != numbers.len() {
        return false;
    }
    'params: for i in 0..params.len() {
        if !fits(&params[i], numbers[i]) {
            return false;
        }
    }
    true
}

/// Whether a run of the function may have the end.
fn may_end(func: &RawFunction, end: &Expectation) -> bool
    ensures { result ≡ tests.may_end func.now (views.expectation_of end.now) }
{
    match end {
        Expectation::Values(numbers) => {
            are_values(func.signature.results.as_slice(), numbers.as_slice())
        }
        Expectation::Trap(_) | Expectation::Throw { .. } => true,
    }
}

/// Whether this may be wanted of a run of the function.
fn may_be_wanted(func: &RawFunction, wanted: &Wanted) -> bool
    ensures { result ≡ tests.may_be_wanted func.now (views.wanted_of wanted.now) }
{
    match wanted {
        Wanted::Return => true,
        Wanted::Equal(end) | Wanted::Unequal(end) => may_end(func, end),
    }
}

impl<'r> Named<'r> {
    /// The place of the first function of a name.
    fn place(&self, name: &[u8]) -> Option<usize>
        ensures place { result ≡ names.first_place name.now (names.names_of self.now.functions.now) }
        ensures within { IfSome result (λ place. place < length self.now.functions.now) }
    {
        self.places.get(name).copied()
    }
}

/// A script without replies.
fn no_script(alloc: Global) -> Script
    ensures { replies_of result ≡ [] }
{
    Script {
        replies: List::from_vec(Vec::new(alloc)),
    }
}

/// The comment without its `;` and one space behind it.
fn expected_line(comment: &[u8]) -> &[u8]
    ensures { result.now ≡ tests.expected_line comment.now }
{
    let Some((_, rest)) = comment.split_first() else {
        return comment;
    };
    match behind(rest, b" ".as_slice()) {
        Some(text) => text,
        None => rest,
    }
}

/// The function whose comments are read, with what they ask for up to here.
#[derive(Drop)]
pub(crate) struct FunctionReader<'r> {
    named: &'r Named<'r>,
    end_spot: usize,
    tests: FunctionTests,
    /// The script of the next `run:`.
    script: Script,
    /// Whether a `check:` has stood.
    has_check: bool,
}

impl<'r> Model for FunctionReader<'r> {
    ghost use Rattle.std.specs.Prelude.{All};
    ghost use Rattle.host_script.specs.Script.{replies_of};
    ghost use Rattle.test_directives.specs.Reading.{Read};
    ghost use Rattle.test_directives.specs.Views.{function_of, IsPlaced};

    ghost Value = { Read };

    ghost view = { λ r. record {
      functions = r.named.now.functions.now;
      end_spot = r.end_spot;
      tests = function_of r.tests;
      script = replies_of r.script;
      has_check = r.has_check;
    } };

    ghost invariant = { λ r. All (IsPlaced r.named.now.functions.now) r.tests.runs.items };
}

impl<'r> FunctionReader<'r> {
    /// A function of which no comment was read yet.
    pub(crate) fn new(
        alloc: Global,
        named: &'r Named<'r>,
        func: &RawFunction,
        line: u32,
    ) -> Result<Self, AllocError>
        ensures { IfOk result (λ r. r ≡ spec.unread named.now.functions.now func.now line) }
    {
        Ok(FunctionReader {
            named,
            end_spot: func.end_spot,
            tests: FunctionTests {
                name: spelled_name(alloc, &func.name)?,
                line,
                runs: Vec::new(alloc),
                lines: Vec::new(alloc),
                error: None,
                expected: Vec::new(alloc),
            },
            script: no_script(alloc),
            has_check: false,
        })
    }

    /// What the comments asked for.
    pub(crate) fn into_tests(self) -> FunctionTests
        ensures tests { views.function_of result ≡ self.entry.tests }
        ensures placed { All (views.IsPlaced self.entry.functions) result.runs.items }
    {
        self.tests
    }

    fn add_run(
        &mut self,
        alloc: Global,
        line: u32,
        name: List<u8>,
        numbers: List<i128>,
        wanted: Wanted,
    ) -> Result<(), DirectiveErr>
        ensures taken { OnOk result
            (spec.Takes self.old line (spec.run name numbers (views.wanted_of wanted)) self.new) }
        ensures refused { IfErr result
            (spec.Misplaces self.old line (spec.run name numbers (views.wanted_of wanted))) }
    {
        let Some(func) = self.named.place(name.as_slice()) else {
            return Err(DirectiveErr::BadDirective(line));
        };
        let called = &self.named.functions[func];
        if !are_values(called.signature.params.as_slice(), numbers.as_slice())
            || !may_be_wanted(called, &wanted)
        {
            return Err(DirectiveErr::BadDirective(line));
        }
        let script = mem::replace(&mut self.script, no_script(alloc));
        self.tests.runs.push(RunTest {
            line,
            func,
            name,
            numbers,
            wanted,
            script,
            trace: None,
        })?;
        Ok(())
    }

    /// Adds the line of an event to the last run.
    fn add_trace(&mut self, alloc: Global, line: u32, event: List<u8>) -> Result<(), DirectiveErr>
        ensures taken { OnOk result (spec.Takes self.old line (directives.Trace event) self.new) }
        ensures refused { IfErr result (spec.Misplaces self.old line (directives.Trace event)) }
    {
        let Some(run) = self.tests.runs.pop() else {
            return Err(DirectiveErr::BadDirective(line));
        };
        self.tests.runs.push(with_event(alloc, run, event)?)?;
        Ok(())
    }

    fn add_lines(&mut self, line: u32, test: LineTest) -> Result<(), DirectiveErr>
        ensures taken { OnOk result
            (spec.Takes self.old line (directives.Lines (views.line_test_of test)) self.new) }
        ensures refused { IfErr result
            (spec.Misplaces self.old line (directives.Lines (views.line_test_of test))) }
    {
        match test.check {
            LineCheck::Check => self.has_check = true,
            LineCheck::Nextln => {
                if !self.has_check {
                    return Err(DirectiveErr::BadDirective(line));
                }
            }
            LineCheck::Not => {}
        }
        self.tests.lines.push(test)?;
        Ok(())
    }

    fn add_error(&mut self, line: u32)
        ensures { spec.Takes self.old line directives.Error self.new }
    {
        if self.tests.error.is_none() {
            self.tests.error = Some(line);
        }
    }

    /// Adds a directive of this line.
    fn add(&mut self, alloc: Global, line: u32, directive: Directive) -> Result<(), DirectiveErr>
        ensures taken { OnOk result (spec.Takes self.old line (views.directive_of directive) self.new) }
        ensures refused { IfErr result (spec.Misplaces self.old line (views.directive_of directive)) }
    {
        match directive {
            Directive::Run {
                name,
                numbers,
                wanted,
            } => self.add_run(alloc, line, name, numbers, wanted),
            Directive::Host(script) => {
                self.script = script;
                Ok(())
            }
            Directive::Trace(event) => self.add_trace(alloc, line, event),
            Directive::Line(test) => self.add_lines(line, test),
            Directive::Error => {
                self.add_error(line);
                Ok(())
            }
        }
    }

    /// Adds what a comment says that is no directive, where it stands behind the function.
    fn add_plain(&mut self, alloc: Global, comment: &PlacedComment<'_>) -> Result<(), AllocError>
        ensures { OnOk result (self.new ≡ spec.after_comment self.old (placed_of comment.now) directives.Plain) }
    {
        if self.end_spot < comment.spot {
            let line = Vec::from_slice(alloc, expected_line(comment.text))?;
            self.tests.expected.push(List::from_vec(line))?;
        }
        Ok(())
    }

    /// Reads the next comment.
    pub(crate) fn take(
        &mut self,
        alloc: Global,
        comment: &PlacedComment<'_>,
    ) -> Result<(), DirectiveErr>
        ensures taken { OnOk result (spec.Reads self.old (placed_of comment.now) self.new) }
        ensures refused { IfErr result (spec.Stops self.old (placed_of comment.now)) }
    {
        match comment_of(alloc, comment.text)? {
            Comment::Plain => {
                self.add_plain(alloc, comment)?;
                Ok(())
            }
            Comment::Asks(directive) => self.add(alloc, comment.line, directive),
            Comment::Bad => Err(DirectiveErr::BadDirective(comment.line)),
        }
    }
}

/// A run with the line of one more event.
fn with_event(alloc: Global, run: RunTest, event: List<u8>) -> Result<RunTest, AllocError>
    ensures run { IfOk result (λ longer. views.run_of longer ≡ spec.with_events (views.run_of run) (event ∷ [])) }
    ensures place { IfOk result (λ longer. longer.func ≡ run.func) }
{
    let mut events = events_of(alloc, run.trace);
    events.push(event)?;
    Ok(RunTest {
        trace: Some(events),
        ..run
    })
}

/// The lines of events so far.
fn events_of(alloc: Global, trace: Option<Vec<List<u8>>>) -> Vec<List<u8>>
    ensures { result.items ≡ views.events trace }
{
    match trace {
        Some(events) => events,
        None => Vec::new(alloc),
    }
}
