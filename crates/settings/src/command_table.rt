//! The command table, as `clap` has it.
ghost use Rattle.std.specs.Prelude.{◌≡◌, IfOk, [], false, codes};
ghost use Rattle.clap.specs.Words.{app_of, new_app, rule_of, shape_of};
ghost use Rattle.clap.specs.declared.builder.command.Command.TheViews.{out-Command};
ghost use Rattle.settings.specs.Options.{flag, number_or, required_number, required_text, text_or_empty};
ghost use Rattle.settings.specs.Shown.{number_shown};
ghost use Rattle.settings.specs.Table as spec;

use crate::options::{
    ARGS, CALLEE_SIZE, CALLER_SIZE, ENTRY, FUNCTIONS, MEMORY, NUMBER, NumberOption, SCRIPT, STEPS,
    TEXT, WORKERS,
};
use clap::builder::ValueParser;
use clap::{Arg, ArgAction, Command};
use std::alloc::{AllocError, Global};

/// `clifinl` with its commands, one of which has to be named.
pub(crate) fn command_table<'a>(alloc: Global) -> Result<Command<'a>, AllocError>
    ensures { IfOk result (λ c. app_of c ≡ spec.table) }
{
    new_command(
        alloc,
        "clifinl",
        "An inliner for whole modules of CLIF. A text is read from standard input.",
    )
    .subcommand_required(true)
    .subcommand(plain_command(
        alloc,
        "check",
        "Says whether a text is an accepted module, or names its first fault",
    ))?
    .subcommand(plain_command(
        alloc,
        "print",
        "Writes the canonical text of an accepted module",
    ))?
    .subcommand(inline_command(alloc)?)?
    .subcommand(run_command(alloc)?)?
    .subcommand(gen_command(alloc)?)?
    .subcommand(plain_command(
        alloc,
        "test",
        "Carries out the tests that stand in a text, and writes a report of them",
    ))
}

/// A command that has no options yet, and what its help says of it.
fn new_command<'a>(alloc: Global, name: &'a str, about: &'a str) -> Command<'a>
    ensures { (app_of result ≡ new_app name.entry.now) × ((out-Command result).has_globals ≡ false) }
{
    Command::new(alloc, name).about(about)
}

/// A command without options.
fn plain_command<'a>(alloc: Global, name: &'a str, about: &'a str) -> Command<'a>
    ensures { (shape_of result ≡ spec.command name.entry.now []) × ((out-Command result).has_globals ≡ false) }
{
    new_command(alloc, name, about)
}

fn inline_command<'a>(alloc: Global) -> Result<Command<'a>, AllocError>
    ensures { IfOk result (λ c. (shape_of c ≡ spec.command (codes "inline") spec.inline_options)
        × ((out-Command c).has_globals ≡ false)) }
{
    new_command(
        alloc,
        "inline",
        "Writes the module with its calls inlined, from callees to callers",
    )
    .arg(callee_size_option(alloc))?
    .arg(caller_size_option(alloc))?
    .arg(workers_option(alloc))
}

fn run_command<'a>(alloc: Global) -> Result<Command<'a>, AllocError>
    ensures { IfOk result (λ c. (shape_of c ≡ spec.command (codes "run") spec.run_options)
        × ((out-Command c).has_globals ≡ false)) }
{
    new_command(
        alloc,
        "run",
        "Runs a function in the reference interpreter, and writes what happened",
    )
    .arg(required_option(alloc, ENTRY, "The function's name, as %f or u0:1"))?
    .arg(text_option(
        alloc,
        ARGS,
        "Numbers for its parameters, separated by commas",
    ))?
    .arg(text_option(
        alloc,
        SCRIPT,
        "The replies of host functions in order of the calls, as return(7), trap int_divz",
    ))?
    .arg(number_option(
        alloc,
        MEMORY,
        "65536",
        "How many bytes the memory has, at most 16777216",
    ))?
    .arg(number_option(
        alloc,
        STEPS,
        "1000000",
        "The most instructions that are run, at most 1000000000",
    ))
}

fn gen_command<'a>(alloc: Global) -> Result<Command<'a>, AllocError>
    ensures { IfOk result (λ c. (shape_of c ≡ spec.command (codes "gen") spec.gen_options)
        × ((out-Command c).has_globals ≡ false)) }
{
    new_command(
        alloc,
        "gen",
        "Makes a module from a number, and writes what inlining its calls does",
    )
    .arg(number_option(
        alloc,
        NUMBER,
        "0",
        "The number that the module is made from",
    ))?
    .arg(required_number_option(
        alloc,
        FUNCTIONS,
        "How many functions the module has, 1 to 20000",
    ))?
    .arg(flag_option(
        alloc,
        TEXT,
        "Writes the text of the module, and inlines nothing",
    ))?
    .arg(callee_size_option(alloc))?
    .arg(caller_size_option(alloc))?
    .arg(workers_option(alloc))
}

/// The largest size of a callee that is inlined.
fn callee_size_option<'a>(alloc: Global) -> Arg<'a>
    ensures { (rule_of result ≡ number_or spec.callee_size (codes "64")) × (result.global ≡ false) }
{
    number_option(
        alloc,
        CALLEE_SIZE,
        "64",
        "The largest size of a body that is inlined, at most 262144",
    )
}

/// The largest size that a caller may grow to.
fn caller_size_option<'a>(alloc: Global) -> Arg<'a>
    ensures { (rule_of result ≡ number_or spec.caller_size (codes "4096")) × (result.global ≡ false) }
{
    number_option(
        alloc,
        CALLER_SIZE,
        "4096",
        "The largest size that a function may have then, at most 262144",
    )
}

/// How many workers share the job.
fn workers_option<'a>(alloc: Global) -> Arg<'a>
    ensures { (rule_of result ≡ number_or spec.workers (codes "4")) × (result.global ≡ false) }
{
    number_option(
        alloc,
        WORKERS,
        "4",
        "How many workers share the job, 1 to 64",
    )
}

/// An option whose value is a number, or else `usual`.
fn number_option<'a>(alloc: Global, option: NumberOption, usual: &'a str, help: &'a str) -> Arg<'a>
    ensures { (rule_of result ≡ number_or (number_shown option) usual.entry.now) × (result.global ≡ false) }
{
    Arg::new(alloc, option.name)
        .long(option.name)
        .value_parser(ValueParser::unsigned(option.least, option.most))
        .default_value(usual)
        .help(help)
}

/// An option whose value is a text, which is empty where the words have none.
fn text_option<'a>(alloc: Global, name: &'a str, help: &'a str) -> Arg<'a>
    ensures { (rule_of result ≡ text_or_empty name.entry.now) × (result.global ≡ false) }
{
    Arg::new(alloc, name)
        .long(name)
        .default_value("")
        .help(help)
}

/// An option whose value is a text that has to be given.
fn required_option<'a>(alloc: Global, name: &'a str, help: &'a str) -> Arg<'a>
    ensures { (rule_of result ≡ required_text name.entry.now) × (result.global ≡ false) }
{
    Arg::new(alloc, name).long(name).required(true).help(help)
}

/// An option whose value is a number that has to be given.
fn required_number_option<'a>(alloc: Global, option: NumberOption, help: &'a str) -> Arg<'a>
    ensures { (rule_of result ≡ required_number (number_shown option)) × (result.global ≡ false) }
{
    Arg::new(alloc, option.name)
        .long(option.name)
        .value_parser(ValueParser::unsigned(option.least, option.most))
        .required(true)
        .help(help)
}

/// An option without a value, which is given or not.
fn flag_option<'a>(alloc: Global, name: &'a str, help: &'a str) -> Arg<'a>
    ensures { (rule_of result ≡ flag name.entry.now) × (result.global ≡ false) }
{
    Arg::new(alloc, name)
        .long(name)
        .action(ArgAction::SetTrue)
        .help(help)
}
