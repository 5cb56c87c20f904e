// Lengths of the arrays of a configuration.
use crate::config::faults::first_fault;
use crate::config::templates::{Part, with_keys};
use crate::table::{Columns, Outcome};
use std::alloc::{AllocError, Global};

/// An array of so many empty objects.
#[derive(Drop)]
struct Case<'a> {
    version: u64,
    key: &'a str,
    count: u64,
    wanted: &'a str,
}

impl<'a> Case<'a> {
    fn of(line: &'a str) -> Option<Self> {
        let mut columns = Columns::of(line);
        let case = Case {
            version: columns.number()?,
            key: columns.text()?,
            count: columns.number()?,
            wanted: columns.text()?,
        };
        columns.end()?;
        Some(case)
    }
}

/// A key with an array of so many empty objects, of at least one.
fn key_with_objects(alloc: Global, key: &str, count: u64) -> Result<String, AllocError> {
    let mut keys = format!(in alloc; "\"{key}\":[{{}}")?;
    for _ in 1..count {
        keys.push_str(",{}")?;
    }
    keys.push(']')?;
    Ok(keys)
}

/// Tries a line.
pub(crate) fn outcome(alloc: Global, line: &str) -> Result<Outcome, AllocError> {
    let Some(case) = Case::of(line) else {
        return Ok(Outcome::Malformed);
    };
    let keys = key_with_objects(alloc, case.key, case.count)?;
    let text = with_keys(alloc, Part::Root, case.version, &keys)?;
    let came = first_fault(alloc, &text)?;
    Outcome::of(alloc, case.wanted, &came)
}
