// What is decided for a sample, from the rows of its steered domains.
ghost use Rattle.std.specs.Prelude.{◌≡◌, ◌-◌, ◌≤◌, ◌<◌, ◌^◌, All, IfOk, length, nat_le};
ghost use Rattle.vm_plan.specs.PlanRow.{row_of, rows_of};
ghost use Rattle.vm_plan.specs.Revocation.{rows_after};
ghost use Rattle.vm_steer.specs.Deciding.{by_position, coming_from, course_of, free_of, given_of, grants_in, most_moved, on_its_way, outcomes_of, rebalances_in, revocations_in, rows_granted, target_at, thresholds_in, total_held, total_targets, unmet_in, wanted_in};
ghost use Rattle.vm_steer.specs.Turns.{differences_at, AreLowered, AreRaised};

use crate::moves::{grant_targets, rebalance_targets, revoke_targets};
use crate::outcome::Outcome;
use std::alloc::{AllocError, Global};
use vm_plan::{PlanRow, State, Thresholds};
use vm_samples::Policy;

// ---- sums

pub(crate) fn total_held(rows: &[PlanRow]) -> u64
    requires { length rows.now ≤ 256 }
    ensures exact { result ≡ total_held (rows_of rows.now) }
    ensures few { result < 2 ^ 41 }
{
    let mut total = 0;
    for row in rows {
        total += u64::from(row.held);
    }
    total
}

fn total_targets(rows: &[PlanRow]) -> u64
    requires { length rows.now ≤ 256 }
    ensures exact { result ≡ total_targets (rows_of rows.now) }
    ensures few { result < 2 ^ 41 }
{
    let mut total = 0;
    for row in rows {
        total += u64::from(row.target);
    }
    total
}

// What guests want and may have.
fn unmet_in(rows: &[PlanRow]) -> u32
    requires { length rows.now ≤ 256 }
    ensures { result ≡ unmet_in (rows_of rows.now) }
{
    let mut units = 0;
    for row in rows {
        units += row.demand.min(u64::from(row.cap - row.target)) as u32;
    }
    units
}

// What comes of a domain's balloon.
fn coming_from(row: &PlanRow) -> u32
    requires { row.now.target ≤ row.now.held }
    ensures { result ≡ coming_from (row_of row.now) }
{
    if row.demand == 0 {
        row.held - row.target
    } else {
        0
    }
}

// So many units, less those that are on their way.
fn less_coming(units: u32, rows: &[PlanRow]) -> u32
    requires { All (λ row. row.target ≤ row.held) rows.now }
    ensures { result ≡ units - on_its_way (rows_of rows.now) }
{
    let mut left = units;
    for row in rows {
        left = left.saturating_sub(coming_from(row));
    }
    left
}

// ---- how much

// What is free, where so much is held and promised beside the rows.
pub(crate) fn free_of(policy: &Policy, rest: u64, rows: &[PlanRow]) -> u32
    requires few { length rows.now ≤ 256 }
    requires rest { rest ≤ 2 ^ 63 }
    ensures { result ≡ free_of policy.now rest (rows_of rows.now) }
{
    u64::from(policy.memory).saturating_sub(rest + total_held(rows)) as u32
}

// Whether what is held and promised is there, so that what is raised is.
pub(crate) fn may_rise(policy: &Policy, rest: u64, rows: &[PlanRow]) -> bool
    requires few { length rows.now ≤ 256 }
    requires rest { rest ≤ 2 ^ 63 }
    ensures { result ≡ nat_le (given_of rest (rows_of rows.now)) policy.now.memory }
{
    rest + total_held(rows) <= u64::from(policy.memory)
}

// How many revocations the goal wants.
fn wanted_in(policy: &Policy, goal: u32, state: State, rest: u64, rows: &[PlanRow]) -> u64
    requires few { length rows.now ≤ 256 }
    requires rest { rest ≤ 2 ^ 63 }
    requires goal { goal ≡ (thresholds_in policy.now).goal }
    ensures { result ≡ wanted_in policy.now state rest (rows_of rows.now) }
{
    if state == State::High {
        return 0;
    }
    let meant = u64::from(goal) + (rest + total_targets(rows));
    meant.saturating_sub(u64::from(policy.memory))
}

// The most that moves to those that would pay more.
fn most_moved(policy: &Policy, rows: &[PlanRow]) -> u32
    requires few { length rows.now ≤ 256 }
    requires held { All (λ row. row.target ≤ row.held) rows.now }
    ensures { result ≡ most_moved policy.now (rows_of rows.now) }
{
    less_coming(policy.rebalance.min(unmet_in(rows)), rows)
}

// ---- decisions

pub(crate) fn thresholds_of(policy: &Policy) -> Thresholds
    ensures { result ≡ thresholds_in policy.now }
{
    Thresholds::of(policy.memory, policy.percents)
}

fn copy_of(alloc: Global, rows: &[PlanRow]) -> Result<Vec<PlanRow>, AllocError>
    ensures { IfOk result (λ copy. copy.items ≡ rows.now) }
{
    Vec::from_slice(alloc, rows)
}

fn target_at(rows: &[PlanRow], position: usize) -> u32
    requires { position < length rows.now }
    ensures { result ≡ target_at (rows_of rows.now) position }
{
    rows[position].target
}

// What is decided for the row at a position, by its targets.
fn differences_at(
    rows: &[PlanRow],
    fallen: &[PlanRow],
    risen: &[PlanRow],
    after: &[PlanRow],
    position: usize,
) -> Outcome
    requires rows { position < length rows.now }
    requires fallen { position < length fallen.now }
    requires risen { position < length risen.now }
    requires after { position < length after.now }
    ensures { result ≡ differences_at (rows_of rows.now) (rows_of fallen.now) (rows_of risen.now) (rows_of after.now) position }
{
    let target = target_at(after, position);
    let least = target_at(fallen, position);
    let most = target_at(risen, position);
    Outcome {
        revoked: target_at(rows, position).saturating_sub(least),
        granted: most.saturating_sub(least),
        rebalanced: most.saturating_sub(target),
        target,
    }
}

// .. for each row.
fn differences(
    alloc: Global,
    rows: &[PlanRow],
    fallen: &[PlanRow],
    risen: &[PlanRow],
    after: &[PlanRow],
) -> Result<Vec<Outcome>, AllocError>
    requires fallen { length fallen.now ≡ length rows.now }
    requires risen { length risen.now ≡ length rows.now }
    requires after { length after.now ≡ length rows.now }
    ensures { let each = differences_at (rows_of rows.now) (rows_of fallen.now) (rows_of risen.now) (rows_of after.now) in
        IfOk result (λ outcomes. outcomes.items ≡ by_position each (length rows.now)) }
{
    let mut outcomes = Vec::with_capacity(alloc, rows.len())?;
    for position in 0..rows.len() {
        outcomes.push(differences_at(rows, fallen, risen, after, position))?;
    }
    Ok(outcomes)
}

// The rows once targets fell to the goal.
fn fallen_of(
    alloc: Global,
    policy: &Policy,
    goal: u32,
    state: State,
    rest: u64,
    rows: &[PlanRow],
) -> Result<Vec<PlanRow>, AllocError>
    requires few { length rows.now ≤ 256 }
    requires rest { rest ≤ 2 ^ 63 }
    requires goal { goal ≡ (thresholds_in policy.now).goal }
    requires held { All (λ row. row.target ≤ row.held) rows.now }
    ensures rows { let before = rows_of rows.now in
        IfOk result (λ fallen. rows_of fallen.items ≡ rows_after before (revocations_in policy.now state rest before)) }
    ensures lowered { let before = rows_of rows.now in
        IfOk result (λ fallen. AreLowered (revocations_in policy.now state rest before) before (rows_of fallen.items)) }
    ensures held { IfOk result (λ fallen. All (λ row. row.target ≤ row.held) fallen.items) }
{
    let mut fallen = copy_of(alloc, rows)?;
    let wanted = wanted_in(policy, goal, state, rest, rows);
    revoke_targets(alloc, policy.tax, wanted, &mut fallen)?;
    Ok(fallen)
}

// The rows once targets rose.
fn risen_of(
    alloc: Global,
    policy: &Policy,
    thresholds: &Thresholds,
    state: State,
    free: u32,
    rows: &[PlanRow],
) -> Result<Vec<PlanRow>, AllocError>
    requires few { length rows.now ≤ 256 }
    requires thresholds { thresholds.now ≡ thresholds_in policy.now }
    requires held { All (λ row. row.target ≤ row.held) rows.now }
    ensures rows { let before = rows_of rows.now in
        IfOk result (λ risen. rows_of risen.items ≡ rows_granted free before (grants_in policy.now state free before)) }
    ensures raised { let before = rows_of rows.now in
        IfOk result (λ risen. AreRaised (grants_in policy.now state free before) before (rows_of risen.items)) }
    ensures held { IfOk result (λ risen. All (λ row. row.target ≤ row.held) risen.items) }
{
    let mut risen = copy_of(alloc, rows)?;
    grant_targets(alloc, state, free, thresholds, policy.tax, &mut risen)?;
    Ok(risen)
}

// The rows once targets fell for domains that would pay more.
fn balanced_of(alloc: Global, policy: &Policy, rows: &[PlanRow]) -> Result<Vec<PlanRow>, AllocError>
    requires few { length rows.now ≤ 256 }
    requires held { All (λ row. row.target ≤ row.held) rows.now }
    ensures rows { let before = rows_of rows.now in
        IfOk result (λ after. rows_of after.items ≡ rows_after before (rebalances_in policy.now before)) }
    ensures lowered { let before = rows_of rows.now in
        IfOk result (λ after. AreLowered (rebalances_in policy.now before) before (rows_of after.items)) }
{
    let mut after = copy_of(alloc, rows)?;
    let limit = most_moved(policy, rows);
    rebalance_targets(alloc, policy.tax, limit, &mut after)?;
    Ok(after)
}

// What is decided for each row of a sample, where so much is held and promised beside them. A want of memory is the only error.
pub(crate) fn decide(
    alloc: Global,
    policy: &Policy,
    state: State,
    rest: u64,
    rows: &[PlanRow],
) -> Result<Vec<Outcome>, AllocError>
    requires few { length rows.now ≤ 256 }
    requires rest { rest ≤ 2 ^ 63 }
    requires held { All (λ row. row.target ≤ row.held) rows.now }
    ensures { IfOk result (λ outcomes. outcomes.items ≡ outcomes_of (course_of policy.now state rest (rows_of rows.now))) }
{
    let thresholds = thresholds_of(policy);
    let free = free_of(policy, rest, rows);
    let fallen = fallen_of(alloc, policy, thresholds.goal, state, rest, rows)?;
    let risen = risen_of(alloc, policy, &thresholds, state, free, &fallen)?;
    let after = balanced_of(alloc, policy, &risen)?;
    differences(alloc, rows, &fallen, &risen, &after)
}
