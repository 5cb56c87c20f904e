// Whole numbers.
use crate::escapes::unescaped;
use crate::optional::optional;
use crate::pairs::Pair;
use crate::table::Outcome;
use std::alloc::{AllocError, Global};
use vm_json::{Scratch, read, whole};

/// Tries a line.
pub(crate) fn outcome(alloc: Global, line: &str) -> Result<Outcome, AllocError> {
    let Some(case) = Pair::of(line) else {
        return Ok(Outcome::Malformed);
    };
    let bytes = unescaped(alloc, case.text)?;
    let mut scratch = Scratch::new(alloc);
    match read(alloc, &bytes, &mut scratch) {
        Ok(value) => optional(alloc, case.wanted, whole(&value)),
        Err(fault) => Outcome::of(alloc, case.wanted, &fault),
    }
}
