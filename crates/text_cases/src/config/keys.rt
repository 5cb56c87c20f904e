// Keys of configurations: what comes of each.
use crate::config::faults::first_fault;
use crate::config::templates::{Part, with_keys};
use crate::table::{Columns, Outcome};
use std::alloc::{AllocError, Global};

/// Keys at the end of a part of a configuration.
#[derive(Drop)]
struct Case<'a> {
    version: u64,
    part: Part,
    keys: &'a str,
    wanted: &'a str,
}

impl<'a> Case<'a> {
    fn of(line: &'a str) -> Option<Self> {
        let mut columns = Columns::of(line);
        let case = Case {
            version: columns.number()?,
            part: Part::of(columns.text()?)?,
            keys: columns.text()?,
            wanted: columns.text()?,
        };
        columns.end()?;
        Some(case)
    }
}

/// Tries a line.
pub(crate) fn outcome(alloc: Global, line: &str) -> Result<Outcome, AllocError> {
    let Some(case) = Case::of(line) else {
        return Ok(Outcome::Malformed);
    };
    let text = with_keys(alloc, case.part, case.version, case.keys)?;
    let came = first_fault(alloc, &text)?;
    Outcome::of(alloc, case.wanted, &came)
}
