// JSON values within one another.
use crate::escapes::unescaped;
use crate::table::{Columns, Outcome};
use std::alloc::{AllocError, Global};
use vm_json::{Scratch, read};

// So many openings, what is inside, and so many closings.
#[derive(Clone, Copy)]
struct Case<'a> {
    depth: u64,
    opening: &'a str,
    inside: &'a str,
    closing: &'a str,
    wanted: &'a str,
}

impl<'a> Case<'a> {
    fn of(line: &'a str) -> Option<Self> {
        let mut columns = Columns::of(line);
        let case = Case {
            depth: columns.number()?,
            opening: columns.text()?,
            inside: columns.text()?,
            closing: columns.text()?,
            wanted: columns.text()?,
        };
        columns.end()?;
        Some(case)
    }
}

// Adds these bytes so many times.
fn push_times(bytes: &mut Vec<u8>, times: u64, more: &[u8]) -> Result<(), AllocError> {
    for _ in 0..times {
        bytes.extend_from_slice(more)?;
    }
    Ok(())
}

// The text of a case.
fn nested(alloc: Global, case: Case<'_>) -> Result<Vec<u8>, AllocError> {
    let mut bytes = Vec::new(alloc);
    push_times(&mut bytes, case.depth, &unescaped(alloc, case.opening)?)?;
    push_times(&mut bytes, 1, &unescaped(alloc, case.inside)?)?;
    push_times(&mut bytes, case.depth, &unescaped(alloc, case.closing)?)?;
    Ok(bytes)
}

/// Tries a line.
pub(crate) fn outcome(alloc: Global, line: &str) -> Result<Outcome, AllocError> {
    let Some(case) = Case::of(line) else {
        return Ok(Outcome::Malformed);
    };
    let bytes = nested(alloc, case)?;
    let mut scratch = Scratch::new(alloc);
    match read(alloc, &bytes, &mut scratch) {
        Ok(_) => Outcome::of(alloc, case.wanted, &"read"),
        Err(fault) => Outcome::of(alloc, case.wanted, &fault),
    }
}
