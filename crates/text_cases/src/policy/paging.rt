// What guests give up by paging.
use crate::policy::rows::row_of;
use crate::policy::thresholds::state_of;
use crate::table::{Columns, Outcome};
use std::alloc::{AllocError, Global};
use vm_plan::{PlanRow, State, is_blocked, page_count};

// A guest in a state, and what it gives up.
#[derive(Clone, Copy)]
struct Case<'a> {
    state: State,
    row: PlanRow,
    page_rate: u32,
    wanted: &'a str,
}

impl<'a> Case<'a> {
    fn of(line: &'a str) -> Option<Self> {
        let mut columns = Columns::of(line);
        let case = Case {
            state: state_of(columns.text()?)?,
            row: row_of(columns.text()?)?,
            page_rate: u32::try_from(columns.number()?).ok()?,
            wanted: columns.text()?,
        };
        columns.end()?;
        Some(case)
    }
}

/// Tries a line.
pub(crate) fn outcome(alloc: Global, line: &str) -> Result<Outcome, AllocError> {
    let Some(case) = Case::of(line) else {
        return Ok(Outcome::Malformed);
    };
    if case.row.target > case.row.held {
        return Ok(Outcome::Malformed);
    }
    let count = page_count(case.state, &case.row, case.page_rate);
    if is_blocked(case.state, &case.row) {
        let came = format!(in alloc; "{count} blocked")?;
        return Outcome::of(alloc, case.wanted, &came);
    }
    Outcome::of(alloc, case.wanted, &count)
}
