// Who gives idle memory to those that would pay more for it.
use crate::policy::plans::told_stretches;
use crate::policy::rows::rows_of;
use crate::table::{Columns, Outcome};
use std::alloc::{AllocError, Global};
use vm_plan::rebalancing;

// Guests, and the stretches of those that give a page each.
#[derive(Clone, Copy)]
struct Case<'a> {
    tax: u32,
    limit: u32,
    rows: &'a str,
    wanted: &'a str,
}

impl<'a> Case<'a> {
    fn of(line: &'a str) -> Option<Self> {
        let mut columns = Columns::of(line);
        let case = Case {
            tax: u32::try_from(columns.number()?).ok()?,
            limit: u32::try_from(columns.number()?).ok()?,
            rows: columns.text()?,
            wanted: columns.text()?,
        };
        columns.end()?;
        Some(case)
    }
}

/// Tries a line.
pub(crate) fn outcome(alloc: Global, line: &str) -> Result<Outcome, AllocError> {
    let Some(case) = Case::of(line) else {
        return Ok(Outcome::Malformed);
    };
    let Some(rows) = rows_of(alloc, case.rows)? else {
        return Ok(Outcome::Malformed);
    };
    if rows.len() > 256 || case.tax > 9999 {
        return Ok(Outcome::Malformed);
    }
    let plan = rebalancing(alloc, case.tax, case.limit, &rows)?;
    Outcome::of(alloc, case.wanted, &told_stretches(alloc, &plan)?)
}
