// What is said of a refused configuration.
use crate::table::{Columns, Outcome};
use std::alloc::{AllocError, Global};
use vm_config::{explain, read_config};

/// A text with a fault.
#[derive(Drop)]
struct Case<'a> {
    text: &'a str,
    number: u64,
    wanted: &'a str,
    wanted_with_place: &'a str,
}

impl<'a> Case<'a> {
    fn of(line: &'a str) -> Option<Self> {
        let mut columns = Columns::of(line);
        let case = Case {
            text: columns.text()?,
            number: columns.number()?,
            wanted: columns.text()?,
            wanted_with_place: columns.text()?,
        };
        columns.end()?;
        Some(case)
    }
}

/// Tries a line.
pub(crate) fn outcome(alloc: Global, line: &str) -> Result<Outcome, AllocError> {
    let Some(case) = Case::of(line) else {
        return Ok(Outcome::Malformed);
    };
    let bytes = case.text.as_bytes();
    let Some(error) = read_config(alloc, bytes).err() else {
        return Ok(Outcome::Malformed);
    };
    let Some(fault) = explain(alloc, bytes)? else {
        return Ok(Outcome::Malformed);
    };
    let Case {
        number,
        wanted,
        wanted_with_place,
        ..
    } = case;
    let wanted = format!(in alloc; "{number} | {wanted} | {wanted_with_place}")?;
    let number = error.number();
    let came = format!(in alloc; "{number} | {error} | {fault}")?;
    Outcome::of(alloc, &wanted, &came)
}
