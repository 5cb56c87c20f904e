//! Tries tables of cases, of which each line says what comes of a text.
//!
//! In the folder where it runs, `NAME.table` is the table of a kind of cases: a case a line, in columns that its head names. Blank
//! lines, and lines that begin with `#`, are none. A line `NAME COUNT ok` says that so many cases were tried, and that each came to what
//! its line wants; and where `D` of them did not, a line for each tells which, and `NAME COUNT differ D` ends them.
#![tactic(auto)]

mod commands;
mod config;
mod escapes;
mod json;
mod kind;
mod lackey;
mod lists;
mod odd;
mod optional;
mod pairs;
mod policy;
mod table;
mod trace;
mod working_set;

use kind::Kind;
use std::alloc::Global;
use std::rt::Files;
use std::{fs, io};
use table::Outcome;

/// Whether a line holds a case.
fn is_case(line: &str) -> bool {
    !line.trim().is_empty() && !line.starts_with('#')
}

/// Tries a line, and tells where it differs. The answer is how many cases differ: 1 or 0.
fn try_line(
    rt: &(impl Print + Alloc),
    alloc: Global,
    kind: Kind,
    number: usize,
    line: &str,
) -> io::Result<u32> {
    let name = kind.name();
    match kind.outcome(alloc, line)? {
        Outcome::Agrees => return Ok(0),
        Outcome::Differs(came) => println!(rt; "{name}.table:{number}: {line} <- {came}")?,
        Outcome::Malformed => println!(rt; "{name}.table:{number}: {line} <- no case")?,
    }
    Ok(1)
}

/// Tries each case of a table, and tells how many there are.
fn try_table(rt: &(impl Print + Alloc), alloc: Global, kind: Kind, table: &str) -> io::Result<()> {
    let name = kind.name();
    let mut number = 0;
    let mut count = 0;
    let mut different = 0;
    for line in table.lines() {
        number = usize::saturating_add(number, 1);
        if is_case(line) {
            count = u32::saturating_add(count, 1);
            different = u32::saturating_add(different, try_line(rt, alloc, kind, number, line)?);
        }
    }
    if different == 0 {
        println!(rt; "{name} {count} ok")
    } else {
        println!(rt; "{name} {count} differ {different}")
    }
}

/// Reads the table of a kind, and tries it.
fn try_kind(rt: &(impl Files + Print + Alloc), alloc: Global, kind: Kind) -> io::Result<()> {
    let name = kind.name();
    let table = fs::read_to_string(rt, format!(in alloc; "{name}.table")?)?;
    try_table(rt, alloc, kind, table.as_str())
}

fn main(rt: HostRuntime) -> io::Result<()> {
    for kind in Kind::ALL {
        try_kind(&rt, rt.alloc(), kind)?;
    }
    Ok(())
}
