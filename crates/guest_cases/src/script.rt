// A file of cases.
use crate::fault::Fault;
use crate::guest_case::try_guest;
use std::alloc::{AllocError, Global};
use std::rt::Files;
use std::{fs, io};

/// A line of a file, from 1 on, without the spaces around it.
#[derive(Clone, Copy)]
pub struct Line<'a> {
    pub number: usize,
    pub text: &'a str,
}

/// A line that went otherwise than it says.
#[derive(Drop)]
pub struct Difference<'a> {
    pub line: Line<'a>,
    pub fault: Fault,
}

// The lines of a text without the comments. A blank one ends a case.
fn lines_of(alloc: Global, text: &str) -> Result<Vec<Line<'_>>, AllocError> {
    let mut lines = Vec::new(alloc);
    for (place, line) in text.lines().enumerate() {
        let text = line.trim();
        if !text.starts_with('#') {
            let number = place.saturating_add(1);
            lines.push(Line { number, text })?;
        }
    }
    Ok(lines)
}

// How many cases and lines of them were tried, and how many of these went otherwise.
#[derive(Clone, Copy)]
struct Tally {
    cases: usize,
    lines: usize,
    differences: usize,
}

// Tries a case, and prints each line of it that goes otherwise.
fn try_case(
    rt: &(impl Print + Alloc),
    alloc: Global,
    name: &str,
    lines: &[Line<'_>],
    tally: &mut Tally,
) -> io::Result<()> {
    let mut differences = Vec::new(alloc);
    try_guest(alloc, lines, &mut differences)?;
    for difference in &differences {
        let Line { number, text } = difference.line;
        let fault = &difference.fault;
        println!(rt; "{name}.cases:{number}: {text}: {fault}")?;
    }
    tally.cases = tally.cases.saturating_add(1);
    tally.lines = tally.lines.saturating_add(lines.len());
    tally.differences = tally.differences.saturating_add(differences.len());
    Ok(())
}

/// Tries the cases of a file, and prints how many there were.
pub fn try_script(rt: &(impl Files + Print + Alloc), alloc: Global, name: &str) -> io::Result<()> {
    let text = fs::read_to_string(rt, format!(in alloc; "{name}.cases")?)?;
    let lines = lines_of(alloc, text.as_str())?;
    let mut tally = Tally {
        cases: 0,
        lines: 0,
        differences: 0,
    };
    for case in lines.as_slice().split(|line| line.text.is_empty()) {
        if !case.is_empty() {
            try_case(rt, alloc, name, case, &mut tally)?;
        }
    }
    let Tally {
        cases,
        lines,
        differences,
    } = tally;
    println!(rt; "{name}: {cases} cases, {lines} lines, {differences} differ")
}
