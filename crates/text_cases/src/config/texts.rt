// Whole texts of configurations.
use crate::config::faults::first_fault;
use crate::pairs::Pair;
use crate::table::Outcome;
use std::alloc::{AllocError, Global};

/// Tries a line.
pub(crate) fn outcome(alloc: Global, line: &str) -> Result<Outcome, AllocError> {
    let Some(case) = Pair::of(line) else {
        return Ok(Outcome::Malformed);
    };
    let came = first_fault(alloc, case.text)?;
    Outcome::of(alloc, case.wanted, &came)
}
