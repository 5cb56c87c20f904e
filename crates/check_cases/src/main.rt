//! Tries a table of texts, of which each line says what `vm_check` tells of one.
//!
//! In the folder where it runs, `findings.table` has a case a line: a text, and behind ` | ` each line that is told of it, in order.
//! Blank lines, and lines that begin with `#`, are none. `findings COUNT ok` says that so many cases were tried, and that each came to
//! what its line wants; and where `D` of them did not, a line for each tells which, and `findings COUNT differ D` ends them.
#![tactic(auto)]

use std::alloc::{AllocError, Global};
use std::rt::Files;
use std::{fs, io, str};
use vm_check::check;
use vm_streams::Watched;

/// What stands between a text and what is told of it, and between two lines of that.
const SEPARATOR: &str = " | ";

/// Whether a line holds a case.
fn is_case(line: &str) -> bool {
    !line.trim().is_empty() && !line.starts_with('#')
}

/// What is written of a text, if as many lines are written as are answered.
fn written_of(alloc: Global, text: &str) -> Result<Option<Vec<u8>>, AllocError> {
    let mut written = Vec::new(alloc);
    let mut writer = Watched::new(&mut written);
    let Ok(count) = check(alloc, text.as_bytes(), &mut writer) else {
        return Err(AllocError);
    };
    if written.iter().filter(|byte| **byte == b'\n').count() != count {
        return Ok(None);
    }
    Ok(Some(written))
}

/// Lines as a case has them.
fn joined(alloc: Global, lines: &str) -> Result<String, AllocError> {
    let mut joined = String::new(alloc);
    for line in lines.lines() {
        if !joined.is_empty() {
            joined.push_str(SEPARATOR)?;
        }
        joined.push_str(line)?;
    }
    Ok(joined)
}

/// What is told of a text, as a case has it.
fn told_of(alloc: Global, text: &str) -> Result<String, AllocError> {
    let Some(written) = written_of(alloc, text)? else {
        return String::from_str(alloc, "not as many lines as answered");
    };
    match str::from_utf8(&written) {
        Ok(lines) => joined(alloc, lines),
        Err(_) => String::from_str(alloc, "no text"),
    }
}

/// Tries a line, and tells where it differs. The answer is how many cases differ: 1 or 0.
fn try_line(
    rt: &(impl Print + Alloc),
    alloc: Global,
    number: usize,
    line: &str,
) -> io::Result<u32> {
    let (text, wanted) = line.split_once(SEPARATOR).unwrap_or((line, ""));
    let told = told_of(alloc, text)?;
    if told.as_str() == wanted {
        return Ok(0);
    }
    println!(rt; "findings.table:{number}: {line} <- {told}")?;
    Ok(1)
}

/// Tries each case of a table, and tells how many there are.
fn try_table(rt: &(impl Print + Alloc), alloc: Global, table: &str) -> io::Result<()> {
    let mut number = 0;
    let mut count = 0;
    let mut different = 0;
    for line in table.lines() {
        number = usize::saturating_add(number, 1);
        if is_case(line) {
            count = u32::saturating_add(count, 1);
            different = u32::saturating_add(different, try_line(rt, alloc, number, line)?);
        }
    }
    if different == 0 {
        println!(rt; "findings {count} ok")
    } else {
        println!(rt; "findings {count} differ {different}")
    }
}

fn main(rt: HostRuntime) -> io::Result<()> {
    let alloc = rt.alloc();
    let table = fs::read_to_string(&rt, String::from_str(alloc, "findings.table")?)?;
    try_table(&rt, alloc, table.as_str())
}
