// Who is taken from first.
use crate::optional::optional;
use crate::policy::rows::rows_of;
use crate::table::{Columns, Outcome};
use std::alloc::{AllocError, Global};
use vm_plan::least;

// Guests, and the position of the one that is taken from first.
#[derive(Clone, Copy)]
struct Case<'a> {
    tax: u32,
    rows: &'a str,
    wanted: &'a str,
}

impl<'a> Case<'a> {
    fn of(line: &'a str) -> Option<Self> {
        let mut columns = Columns::of(line);
        let case = Case {
            tax: u32::try_from(columns.number()?).ok()?,
            rows: columns.text()?,
            wanted: columns.text()?,
        };
        columns.end()?;
        Some(case)
    }
}

/// Tries a line.
pub(crate) fn outcome(alloc: Global, line: &str) -> Result<Outcome, AllocError> {
    let Some(case) = Case::of(line) else {
        return Ok(Outcome::Malformed);
    };
    let Some(rows) = rows_of(alloc, case.rows)? else {
        return Ok(Outcome::Malformed);
    };
    if rows.len() > 256 || case.tax > 9999 {
        return Ok(Outcome::Malformed);
    }
    optional(alloc, case.wanted, least(case.tax, &rows).map(u64::from))
}
