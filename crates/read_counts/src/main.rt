//! Reads a text from standard input as far as the first word of the command line says, and writes how much it found:
//! `bytes`, `tokens`, `raw`, the raw module from the list of its tokens, or `text`, the raw module from the bytes;
//! `raw` where there is none. The second word is how many workers read the raw module; four where there is none.
//! bench/reading.py measures it.
#![tactic(auto)]

use clif_lex::{TextErr, tokens};
use clif_read::RawModule;
use clk_flow::{StdSource, read_whole};
use read_workers::{read_raw, read_text};
use std::alloc::Global;
use std::env;
use std::mem::forget;
use std::process::ExitCode;
use std::thread::Threads;

/// The most bytes that are read.
const LIMIT: usize = 134_217_728;

/// How many workers read where the words say nothing of it.
const WORKERS: usize = 4;

/// How far a text is read.
#[derive(Clone, Copy)]
enum Step {
    Bytes,
    Tokens,
    Raw,
    Text,
}

/// How much was found.
#[derive(Clone, Copy)]
enum Found {
    Bytes(usize),
    Tokens(usize),
    Lines { functions: usize, lines: usize },
}

/// The step that a word names; without a word, reading the raw module from the list of its tokens.
fn step_of(word: Option<&String>) -> Option<Step> {
    let Some(word) = word else {
        return Some(Step::Raw);
    };
    match word.as_str() {
        "bytes" => Some(Step::Bytes),
        "tokens" => Some(Step::Tokens),
        "raw" => Some(Step::Raw),
        "text" => Some(Step::Text),
        _ => None,
    }
}

/// The number of workers that a word writes, if there is one.
fn workers_of(word: Option<&String>) -> Option<usize> {
    match word {
        Some(word) => word.as_str().parse::<usize>().ok(),
        None => Some(WORKERS),
    }
}

/// The functions of a module, and the lines of their blocks. The module stays in memory: the program ends here, and
/// reading alone is measured.
fn count_lines(found: RawModule) -> Found {
    let mut lines: usize = 0;
    for function in found.functions.as_slice() {
        for block in function.blocks.as_slice() {
            lines = lines.saturating_add(block.lines.as_slice().len());
        }
    }
    let functions = found.functions.as_slice().len();
    forget(found);
    Found::Lines { functions, lines }
}

/// What a text has, as far as the step reads it.
fn read<R: Threads + Sync>(
    rt: &R,
    alloc: Global,
    text: &[u8],
    step: Step,
    workers: usize,
) -> Result<Found, TextErr> {
    match step {
        Step::Bytes => Ok(Found::Bytes(text.len())),
        Step::Tokens => Ok(Found::Tokens(tokens(alloc, text)?.len())),
        Step::Raw => {
            let list = tokens(alloc, text)?;
            let found = read_raw(rt, alloc, text, &list, workers)?;
            Ok(count_lines(found))
        }
        Step::Text => Ok(count_lines(read_text(rt, alloc, text, workers)?)),
    }
}

fn main(rt: HostRuntime) -> ExitCode {
    let Ok(args) = env::args(&rt) else {
        return ExitCode::FAILURE;
    };
    let Ok(words) = args.collect::<Vec<String>>(rt.alloc()) else {
        return ExitCode::FAILURE;
    };
    let Some(step) = step_of(words.get(1)) else {
        return ExitCode::FAILURE;
    };
    let Some(workers) = workers_of(words.get(2)) else {
        return ExitCode::FAILURE;
    };
    let Ok(bytes) = read_whole(rt.alloc(), &mut StdSource::new(rt.stdin()), LIMIT) else {
        return ExitCode::FAILURE;
    };
    let Ok(found) = read(&rt, rt.alloc(), bytes.as_slice(), step, workers) else {
        return ExitCode::FAILURE;
    };
    let written = match found {
        Found::Bytes(bytes) => println!(rt; "{bytes} bytes"),
        Found::Tokens(tokens) => println!(rt; "{tokens} tokens"),
        Found::Lines { functions, lines } => println!(rt; "{functions} functions, {lines} lines"),
    };
    match written {
        Ok(()) => ExitCode::SUCCESS,
        Err(_) => ExitCode::FAILURE,
    }
}
