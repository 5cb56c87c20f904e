// Whole JSON texts, and what is read of them.
use crate::escapes::unescaped;
use crate::json::told::tell;
use crate::pairs::Pair;
use crate::table::Outcome;
use std::alloc::{AllocError, Global};
use vm_json::{Scratch, read};

/// How the value that these bytes are is told, or why they are refused.
pub(crate) fn told(alloc: Global, bytes: &[u8]) -> Result<String, AllocError> {
    let mut scratch = Scratch::new(alloc);
    match read(alloc, bytes, &mut scratch) {
        Ok(value) => {
            let mut out = String::new(alloc);
            tell(&value, &mut out)?;
            Ok(out)
        }
        Err(fault) => format!(in alloc; "{fault}"),
    }
}

/// Tries a line.
pub(crate) fn outcome(alloc: Global, line: &str) -> Result<Outcome, AllocError> {
    let Some(case) = Pair::of(line) else {
        return Ok(Outcome::Malformed);
    };
    let bytes = unescaped(alloc, case.text)?;
    let wanted = unescaped(alloc, case.wanted)?;
    let came = told(alloc, &bytes)?;
    if came.as_bytes() == wanted.as_slice() {
        return Ok(Outcome::Agrees);
    }
    Ok(Outcome::Differs(came))
}
