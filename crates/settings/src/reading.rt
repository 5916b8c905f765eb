//! The settings that words mean.
ghost use Rattle.std.specs.Prelude.{◌≡◌, ◌≢◌, ◌≤◌, IfOk, IfErr, IfSome, map, None, Some, option_map, string_bytes};
ghost use Rattle.clap.specs.Words.{found_of, first_of, kind_of, rows_of, subcommand_rows_of};
ghost use Rattle.clap.specs.declared.error.kind.ErrorKind.TheVariants as kind;
ghost use Rattle.settings.specs.Options.{is_set, number_in, number_of};
ghost use Rattle.settings.specs.Meaning as meaning;
ghost use Rattle.settings.specs.Shown.{gen_shown, inline_shown, number_shown, run_shown, shown};

use crate::command_table::command_table;
use crate::options::{
    ARGS, CALLEE_SIZE, CALLER_SIZE, ENTRY, FUNCTIONS, MEMORY, NUMBER, NumberOption, SCRIPT, STEPS,
    TEXT, WORKERS,
};
use crate::requests::{GenSettings, InlineSettings, RunSettings, Settings};
use clap::ArgMatches;
use clap::error::ErrorKind;
use std::alloc::{AllocError, Global};
use std::{error, fmt};

/// What is said of words in which `clap` finds no fault, and which name no command of these: no such words are known.
const NO_SETTINGS: &str = "error: the words name no command\n";

/// Why words gave no settings.
#[derive(Debug, Drop)]
pub enum Stopped {
    /// The words have no settings. The text says why, or what help they asked for.
    Usage(String),
    /// Memory ran out.
    NoMemory,
}

impl fmt::Display for Stopped {
    fn fmt<W: fmt::Write>(&self, f: &mut fmt::Formatter<W>) -> fmt::Result {
        match self {
            Stopped::Usage(text) => f.write_str(text.as_str()),
            Stopped::NoMemory => f.write_str("out of memory"),
        }
    }
}

impl error::Error for Stopped {}

/// The settings that the words have, of which the first is the program's name.
pub fn read_settings(alloc: Global, words: &[String]) -> Result<Settings, Stopped>
    ensures settings { IfOk result (λ s. meaning.settings_of (map string_bytes words.now) ≡ Some (shown s)) }
    ensures usage { IfErr result (λ e. (text : _) → e ≡ Stopped.Usage text
        → meaning.settings_of (map string_bytes words.now) ≡ None) }
{
    let Ok(command) = command_table(alloc) else {
        return Err(Stopped::NoMemory);
    };
    match command.try_get_matches_from(words) {
        Ok(matches) => settings_in(alloc, &matches),
        Err(error) => Err(stopped_by(alloc, &error)),
    }
}

fn stopped_by(alloc: Global, error: &clap::Error) -> Stopped
    ensures { (text : _) → result ≡ Stopped.Usage text → kind_of error.now ≢ kind.OutOfMemory }
{
    if error.kind() == ErrorKind::OutOfMemory {
        return Stopped::NoMemory;
    }
    match format!(in alloc; "{error}") {
        Ok(text) => Stopped::Usage(text),
        Err(_) => Stopped::NoMemory,
    }
}

/// The settings of the command that was found.
fn settings_in(alloc: Global, matches: &ArgMatches) -> Result<Settings, Stopped>
    ensures settings { IfOk result (λ s. meaning.settings_at (subcommand_rows_of matches.now) ≡ Some (shown s)) }
    ensures usage { IfErr result (λ e. (text : _) → e ≡ Stopped.Usage text
        → meaning.settings_at (subcommand_rows_of matches.now) ≡ None) }
{
    match find_settings(alloc, matches) {
        Ok(Some(settings)) => Ok(settings),
        Ok(None) => match String::from_str(alloc, NO_SETTINGS) {
            Ok(text) => Err(Stopped::Usage(text)),
            Err(_) => Err(Stopped::NoMemory),
        },
        Err(_) => Err(Stopped::NoMemory),
    }
}

fn find_settings(alloc: Global, matches: &ArgMatches) -> Result<Option<Settings>, AllocError>
    ensures { IfOk result (λ s. option_map shown s ≡ meaning.settings_at (subcommand_rows_of matches.now)) }
{
    let Some((name, options)) = matches.subcommand() else {
        return Ok(None);
    };
    if name == "check" {
        Ok(Some(Settings::Check))
    } else if name == "print" {
        Ok(Some(Settings::Print))
    } else if name == "inline" {
        Ok(inline_settings(options).map(Settings::Inline))
    } else if name == "run" {
        Ok(run_settings(alloc, options)?.map(Settings::Run))
    } else if name == "gen" {
        Ok(gen_settings(options).map(Settings::Gen))
    } else if name == "test" {
        Ok(Some(Settings::Test))
    } else {
        Ok(None)
    }
}

fn inline_settings(matches: &ArgMatches) -> Option<InlineSettings>
    ensures { option_map inline_shown result ≡ meaning.inline_settings (rows_of (found_of matches.now)) }
{
    let callee_size = number(matches, CALLEE_SIZE)?;
    let caller_size = number(matches, CALLER_SIZE)?;
    let workers = number(matches, WORKERS)?;
    Some(InlineSettings {
        callee_size: callee_size as usize,
        caller_size: caller_size as usize,
        workers: workers as usize,
    })
}

fn run_settings(alloc: Global, matches: &ArgMatches) -> Result<Option<RunSettings>, AllocError>
    ensures { IfOk result (λ s. option_map run_shown s ≡ meaning.run_settings (rows_of (found_of matches.now))) }
{
    let Some(entry) = text(matches, ENTRY) else {
        return Ok(None);
    };
    let Some(args) = text(matches, ARGS) else {
        return Ok(None);
    };
    let Some(script) = text(matches, SCRIPT) else {
        return Ok(None);
    };
    let Some(memory) = number(matches, MEMORY) else {
        return Ok(None);
    };
    let Some(steps) = number(matches, STEPS) else {
        return Ok(None);
    };
    Ok(Some(RunSettings {
        entry: String::from_str(alloc, entry)?,
        args: String::from_str(alloc, args)?,
        script: String::from_str(alloc, script)?,
        memory: memory as usize,
        steps,
    }))
}

fn gen_settings(matches: &ArgMatches) -> Option<GenSettings>
    ensures { option_map gen_shown result ≡ meaning.gen_settings (rows_of (found_of matches.now)) }
{
    let number_given = number(matches, NUMBER)?;
    let functions = number(matches, FUNCTIONS)?;
    let pass = inline_settings(matches)?;
    Some(GenSettings {
        number: number_given,
        functions: functions as u32,
        text: is_set(matches, TEXT),
        pass,
    })
}

/// Whether the flag is given.
fn is_set(matches: &ArgMatches, name: &str) -> bool
    ensures { result ≡ is_set name.now (rows_of (found_of matches.now)) }
{
    match text(matches, name) {
        Some(value) => value == "true",
        None => false,
    }
}

/// The number that the option's value means.
fn number(matches: &ArgMatches, option: NumberOption) -> Option<u64>
    ensures value { result ≡ number_in (number_shown option) (rows_of (found_of matches.now)) }
    ensures range { IfSome result (λ n. (option.least ≤ n) × (n ≤ option.most)) }
{
    let value = text(matches, option.name)?;
    parse_number(value, option.least, option.most)
}

/// The number from `least` to `most` that a text means.
fn parse_number(text: &str, least: u64, most: u64) -> Option<u64>
    ensures value { result ≡ number_of least most text.now }
    ensures range { IfSome result (λ n. (least ≤ n) × (n ≤ most)) }
{
    match text.parse::<u64>() {
        Ok(number) if least <= number && number <= most => Some(number),
        _ => None,
    }
}

/// The option's value.
fn text<'a>(matches: &ArgMatches<'a>, name: &str) -> Option<&'a str>
    ensures { option_map (λ s. s.now) result ≡ first_of name.now (rows_of (found_of matches.now)) }
{
    matches.get_str(name)
}
