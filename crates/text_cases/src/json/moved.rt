// Values that are moved out of arrays.
use crate::escapes::unescaped;
use crate::pairs::Pair;
use crate::table::Outcome;
use std::alloc::{AllocError, Global};
use vm_json::{Scratch, into_values, read};

/// Tries a line.
pub(crate) fn outcome(alloc: Global, line: &str) -> Result<Outcome, AllocError> {
    let Some(case) = Pair::of(line) else {
        return Ok(Outcome::Malformed);
    };
    let bytes = unescaped(alloc, case.text)?;
    let mut scratch = Scratch::new(alloc);
    let Ok(value) = read(alloc, &bytes, &mut scratch) else {
        return Ok(Outcome::Malformed);
    };
    match into_values(alloc, value) {
        Some(values) => Outcome::of(alloc, case.wanted, &values.len()),
        None => Outcome::of(alloc, case.wanted, &"none"),
    }
}
