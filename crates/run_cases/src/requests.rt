// What words ask of two command lines, and what is said of a run that stopped.
ghost use Rattle.std.specs.Prelude.{◌≡◌, ◌∷◌, []};
ghost use Rattle.vm_programs.specs.runs.Words.{HasWorkersInRange, workers_rule};
ghost use Rattle.vm_words.specs.Words.{line_of};

use crate::cases::{Entry, check_keys, needed};
use crate::system::FakeSystem;
use crate::tally::Tally;
use anyhow::{Result, bail, ensure};
use std::alloc::{AllocError, Global};
use std::io;
use vm_programs::runs::{WORKERS, complain, workers_of};
use vm_sim::{ConfigError, RunError};
use vm_words::{CommandLine, Flag, Request};

const SVG: Flag = Flag {
    name: "svg",
    help: "Write a drawing",
    beside: None,
};

const PLAIN: CommandLine = CommandLine {
    program: "plain",
    takes: "CONFIGURATION",
    gives: "REPORT",
    flags: &[],
    values: &[WORKERS],
    takes_file: false,
    about: "Runs a configuration",
    example: "plain --workers 2",
};

const FLAGGED: CommandLine = CommandLine {
    program: "flagged",
    takes: "CONFIGURATION",
    gives: "SERIES",
    flags: &[SVG],
    values: &[WORKERS],
    takes_file: true,
    about: "Draws a configuration",
    example: "flagged --svg a.json",
};

fn owned(alloc: Global, words: &[&str]) -> Result<Vec<String>, AllocError> {
    let mut texts = Vec::new(alloc);
    for word in words {
        texts.push(String::from_str(alloc, word)?)?;
    }
    Ok(texts)
}

/// What a request asks for: how many workers, whether a drawing, and of which file.
fn told(alloc: Global, request: &Request<'_>) -> Result<String, AllocError>
    requires { HasWorkersInRange request.now }
{
    let workers = workers_of(request);
    let mut told = format!(in alloc; "{workers}")?;
    if request.has_flag(SVG.name) {
        told.push_str(" svg")?;
    }
    if let Some(file) = request.file() {
        told.push_str(" of ")?;
        told.push_str(file)?;
    }
    Ok(told)
}

/// What words ask for, which is nothing where they are refused. Something is said exactly then.
fn asked(alloc: Global, line: &CommandLine, words: &[&str]) -> Result<String>
    requires { (line_of line.now).values ≡ workers_rule ∷ [] }
{
    let texts = owned(alloc, words)?;
    let system = FakeSystem::new(alloc, words);
    let (asked, is_refused) = match line.request(&system, texts.as_slice()) {
        Ok(request) => (told(alloc, &request)?, false),
        Err(_) => (String::from_str(alloc, "nothing")?, true),
    };
    ensure!(
        !system.into_said().is_empty() == is_refused,
        "says something or nothing"
    );
    Ok(asked)
}

fn check_request(alloc: Global, words: &str, wanted: &str) -> Result<()> {
    let words: Vec<&str> = words.split(' ').collect(alloc)?;
    let words = words.as_slice();
    let found = match words.first() {
        Some(&"plain") => asked(alloc, &PLAIN, words)?,
        Some(&"flagged") => asked(alloc, &FLAGGED, words)?,
        _ => bail!("no command line of this name"),
    };
    ensure!(found.as_str() == wanted, "asks {found}, wanted {wanted}");
    Ok(())
}

/// Why a run stopped.
fn error_of(cause: &str) -> Result<RunError> {
    Ok(match cause {
        "names" => RunError::Config(ConfigError::Twice),
        "read" => RunError::Read,
        "write" => RunError::Write,
        "memory" => RunError::Memory,
        "workers" => RunError::Workers,
        _ => bail!("no cause of this name"),
    })
}

/// Refuses another status, or other words on standard error, than are wanted of a run that stopped.
fn check_stopped(
    alloc: Global,
    line: &CommandLine,
    error: RunError,
    status: &str,
    wanted: &str,
) -> Result<()> {
    let system = FakeSystem::new(alloc, &[]);
    let found = complain(line, &system, error);
    ensure!(
        status.parse::<u8>() == Ok(found),
        "status {found}, wanted {status}"
    );
    let said = system.into_said();
    ensure!(
        said.as_str().strip_suffix("\n") == Some(wanted),
        "says {said:?}"
    );
    Ok(())
}

fn check_complaint(alloc: Global, stopped: &str, status: &str, wanted: &str) -> Result<()> {
    match stopped.split_once(' ') {
        Some(("plain", cause)) => check_stopped(alloc, &PLAIN, error_of(cause)?, status, wanted),
        Some(("flagged", cause)) => check_stopped(
            alloc,
            &FLAGGED,
            error_of(cause)?,
            status,
            wanted,
        ),
        _ => bail!("no command line of this name"),
    }
}

/// Tries a line of a block, if it is a case.
fn check(alloc: Global, block: &[Entry], entry: &Entry) -> Result<()> {
    if entry.key == "words" {
        check_keys(block, &["words", "asks"])?;
        return check_request(alloc, entry.value, needed(block, "asks")?);
    }
    check_keys(block, &["stopped", "status", "says"])?;
    let status = needed(block, "status")?;
    check_complaint(
        alloc,
        needed(block, "stopped")?,
        status,
        needed(block, "says")?,
    )
}

/// Tries the cases of a block: each of its words, or its one stopped run.
pub(crate) fn try_block(
    rt: &(impl Print + AllocGlobal),
    block: &[Entry],
    tally: &mut Tally,
) -> io::Result<()> {
    for entry in block {
        if !matches!(entry.key, "asks" | "status" | "says") {
            tally.note(rt, entry.number, check(rt.alloc(), block, entry))?;
        }
    }
    Ok(())
}
