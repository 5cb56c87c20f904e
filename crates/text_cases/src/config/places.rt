// Places of first faults, among two guests and two commands.
use crate::config::faults::first_fault;
use crate::table::{Columns, Outcome};
use std::alloc::{AllocError, Global};

/// Keys at the end of the root, of guest 1 and of command 1.
#[derive(Drop)]
struct Case<'a> {
    root: &'a str,
    guest: &'a str,
    command: &'a str,
    wanted: &'a str,
}

impl<'a> Case<'a> {
    fn of(line: &'a str) -> Option<Self> {
        let mut columns = Columns::of(line);
        let case = Case {
            root: columns.text()?,
            guest: columns.text()?,
            command: columns.text()?,
            wanted: columns.text()?,
        };
        columns.end()?;
        Some(case)
    }
}

/// Keys behind others; `-` is none.
fn further(alloc: Global, keys: &str) -> Result<String, AllocError> {
    if keys == "-" {
        return Ok(String::new(alloc));
    }
    format!(in alloc; ",{keys}")
}

/// A configuration of version 3 with two guests of 4 pages and two commands, and with these keys. Of a key that comes twice the last
/// one counts.
fn text_of(alloc: Global, case: &Case<'_>) -> Result<String, AllocError> {
    let root = further(alloc, case.root)?;
    let guest = further(alloc, case.guest)?;
    let command = further(alloc, case.command)?;
    format!(in alloc;
        "{{\"version\":3,\"frames\":10,\"epochs\":1,\"guests\":[{{\"name\":\"a\",\"size\":4,\"min\":1}},\
{{\"name\":\"b\",\"size\":4,\"min\":1{guest}}}],\
\"commands\":[{{\"at\":0,\"line\":\"x\"}},{{\"at\":0,\"line\":\"x\"{command}}}]{root}}}"
    )
}

/// Tries a line.
pub(crate) fn outcome(alloc: Global, line: &str) -> Result<Outcome, AllocError> {
    let Some(case) = Case::of(line) else {
        return Ok(Outcome::Malformed);
    };
    let text = text_of(alloc, &case)?;
    let came = first_fault(alloc, &text)?;
    Outcome::of(alloc, case.wanted, &came)
}
