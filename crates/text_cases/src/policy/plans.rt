// Plans: which guests give up frames, and which get some.
use crate::policy::rows::{hold_their_targets, rows_of};
use crate::policy::thresholds::{PERCENTS, state_of};
use crate::table::{Columns, Outcome};
use std::alloc::{AllocError, Global};
use vm_plan::{Plan, PlanRow, State, Thresholds, grant, revocations, revoke};

// What is asked of the policy.
#[derive(Clone, Copy)]
enum Asked {
    // So many pages.
    Pages(u64),
    // What a state takes, with so many frames free.
    Falls(State, u32),
    // What a state gives, with so many frames free.
    Rises(State, u32),
}

impl Asked {
    fn of(call: &str, state: &str, count: u64) -> Option<Self> {
        if call == "take" && state == "-" {
            return Some(Asked::Pages(count));
        }
        let state = state_of(state)?;
        let free = u32::try_from(count).ok()?;
        match call {
            "revoke" => Some(Asked::Falls(state, free)),
            "grant" => Some(Asked::Rises(state, free)),
            _ => None,
        }
    }
}

#[derive(Clone, Copy)]
struct Case<'a> {
    asked: Asked,
    tax: u32,
    rows: &'a str,
    wanted: &'a str,
}

impl<'a> Case<'a> {
    fn of(line: &'a str) -> Option<Self> {
        let mut columns = Columns::of(line);
        let call = columns.text()?;
        let state = columns.text()?;
        let count = columns.number()?;
        let case = Case {
            asked: Asked::of(call, state, count)?,
            tax: u32::try_from(columns.number()?).ok()?,
            rows: columns.text()?,
            wanted: columns.text()?,
        };
        columns.end()?;
        Some(case)
    }
}

// The plan for these guests, if they and the tax are within their limits.
fn plan_for(
    alloc: Global,
    asked: Asked,
    tax: u32,
    rows: &[PlanRow],
) -> Result<Option<Plan>, AllocError> {
    if rows.len() > 256 || tax > 9999 {
        return Ok(None);
    }
    if !hold_their_targets(rows) {
        return Ok(None);
    }
    let thresholds = Thresholds::of(100, PERCENTS);
    let plan = match asked {
        Asked::Pages(wanted) => revocations(alloc, tax, wanted, rows)?,
        Asked::Falls(state, free) => revoke(alloc, state, free, &thresholds, tax, rows)?,
        Asked::Rises(state, free) => grant(alloc, state, free, &thresholds, tax, rows)?,
    };
    Ok(Some(plan))
}

// The plan of a case.
fn plan_of(alloc: Global, case: Case<'_>) -> Result<Option<Plan>, AllocError> {
    match rows_of(alloc, case.rows)? {
        Some(rows) => plan_for(alloc, case.asked, case.tax, &rows),
        None => Ok(None),
    }
}

fn told_moves(alloc: Global, plan: &Plan) -> Result<String, AllocError> {
    let mut out = String::new(alloc);
    for position in plan.moves() {
        write!(out, "{position} ")?;
    }
    out.push_str("end")?;
    Ok(out)
}

/// The stretches of a plan, as a table has them.
pub(crate) fn told_stretches(alloc: Global, plan: &Plan) -> Result<String, AllocError> {
    let mut out = String::new(alloc);
    for stretch in plan.stretches() {
        write!(out, "{}x{} ", stretch.position, stretch.count)?;
    }
    out.push_str("end")?;
    Ok(out)
}

/// Tries a plan: the position of a guest for each page.
pub(crate) fn moves(alloc: Global, line: &str) -> Result<Outcome, AllocError> {
    let Some(case) = Case::of(line) else {
        return Ok(Outcome::Malformed);
    };
    match plan_of(alloc, case)? {
        Some(plan) => Outcome::of(alloc, case.wanted, &told_moves(alloc, &plan)?),
        None => Ok(Outcome::Malformed),
    }
}

/// Tries a plan: its stretches of equal positions.
pub(crate) fn stretches(alloc: Global, line: &str) -> Result<Outcome, AllocError> {
    let Some(case) = Case::of(line) else {
        return Ok(Outcome::Malformed);
    };
    match plan_of(alloc, case)? {
        Some(plan) => Outcome::of(alloc, case.wanted, &told_stretches(alloc, &plan)?),
        None => Ok(Outcome::Malformed),
    }
}
