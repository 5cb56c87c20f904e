// Sizes, and the commands that lines are.
use crate::optional::optional;
use crate::pairs::Pair;
use crate::table::{Columns, Outcome};
use std::alloc::{AllocError, Global};
use vm_commands::{Command, parse_line, scaled_pages};

/// The KiB of a page where a case doesn't say it.
const PAGE: u32 = 4;

/// Tries a size: how many pages it is.
pub(crate) fn size(alloc: Global, line: &str) -> Result<Outcome, AllocError> {
    match Pair::quoted(line) {
        Some(case) => optional(alloc, case.wanted, scaled_pages(case.text, PAGE)),
        None => Ok(Outcome::Malformed),
    }
}

// A size, the KiB of a page, and how many pages are wanted.
#[derive(Clone, Copy)]
struct Paged<'a> {
    text: &'a str,
    page: u32,
    wanted: &'a str,
}

impl<'a> Paged<'a> {
    // The case of a line.
    fn of(line: &'a str) -> Option<Self> {
        let mut columns = Columns::of(line);
        let case = Paged {
            text: columns.quoted()?,
            page: u32::try_from(columns.number()?).ok()?,
            wanted: columns.text()?,
        };
        columns.end()?;
        Some(case)
    }
}

/// Tries a size where a page has other KiB: how many pages it is.
pub(crate) fn size_in_pages(alloc: Global, line: &str) -> Result<Outcome, AllocError> {
    let Some(case) = Paged::of(line) else {
        return Ok(Outcome::Malformed);
    };
    if case.page == 0 {
        return Ok(Outcome::Malformed);
    }
    optional(alloc, case.wanted, scaled_pages(case.text, case.page))
}

// The name of a command, its domain, and its number if it has one.
fn told(alloc: Global, command: &Command) -> Result<String, AllocError> {
    match command {
        Command::Start { domain } => named(alloc, "start", domain.as_str()),
        Command::Destroy { domain } => named(alloc, "destroy", domain.as_str()),
        Command::ShowStatistics { domain } => named(alloc, "dommemstat", domain.as_str()),
        Command::SetMemory { domain, pages } => {
            numbered(alloc, "setmem", domain.as_str(), *pages)
        }
        Command::SetMinimum { domain, pages } => {
            numbered(alloc, "memtune", domain.as_str(), *pages)
        }
        Command::SetShares { domain, shares } => {
            numbered(alloc, "memshares", domain.as_str(), u64::from(*shares))
        }
    }
}

fn named(alloc: Global, name: &str, domain: &str) -> Result<String, AllocError> {
    format!(in alloc; "{name} {domain}")
}

fn numbered(alloc: Global, name: &str, domain: &str, number: u64) -> Result<String, AllocError> {
    format!(in alloc; "{name} {domain} {number}")
}

/// Tries a line: the command that it is, or its fault.
pub(crate) fn line(alloc: Global, line: &str) -> Result<Outcome, AllocError> {
    let Some(case) = Pair::quoted(line) else {
        return Ok(Outcome::Malformed);
    };
    match parse_line(alloc, case.text, PAGE) {
        Ok(command) => Outcome::of(alloc, case.wanted, &told(alloc, &command)?),
        Err(fault) => Outcome::of(alloc, case.wanted, &fault),
    }
}
