//! What a boundary takes from its guests and gives them, planned from plain rows before anything is moved.
ghost use Rattle.std.specs.Prelude.{◌≡◌, ◌+◌, ◌<◌, ◌≤◌, ◌++◌, All, IfErr, IfOk, OnOk, length, map};
ghost use Rattle.vm_guest.specs.Boundary.{revoked};
ghost use Rattle.vm_plan.specs.Grants.{IsGrantList};
ghost use Rattle.vm_plan.specs.Paging.{page_count_of};
ghost use Rattle.vm_plan.specs.PlanRow.{row_of, rows_of as plan_rows};
ghost use Rattle.vm_plan.specs.Revocation.{revoked_row, rows_after, IsRevocable};
ghost use Rattle.vm_plan.specs.Row.{change_at};
ghost use Rattle.vm_pool.specs.Changes.{changed};
ghost use Rattle.vm_pool.specs.Pool.{total_held, EachGuest};
ghost use Rattle.vm_reclaim.specs.Boundary.{carried_out, plan_of, pool_balanced, pool_reclaimed, pool_settled, CanCarryOut};
ghost use Rattle.vm_reclaim.specs.Fairness.{GivesFromCheapest, IsAtMinimum, TakesFromCheapest};
ghost use Rattle.vm_reclaim.specs.Numbers.{policy_in};
ghost use Rattle.vm_reclaim.specs.Planning.{frames_in, if_paged, paged_row, row_counts, waiting_from, waits_row, CanLower};
ghost use Rattle.vm_reclaim.specs.Reclaim.{if_blocked, paged_from, pool_revoked, revocations_in, blocks_in, wanted_in};
ghost use Rattle.vm_reclaim.specs.Rows.{plan_pool_of, rows_of};
ghost use Rattle.vm_tax.specs.Ratio.{hundredths};

use crate::lists::{Blocked, BoundaryPlan, Paged, Paging};
use crate::policy::Numbers;
use crate::rebalance::plan_rebalancing;
use crate::reclaim::blocks_in;
use crate::rest::{is_at_rest, nothing};
use crate::rows::rows_of;
use std::alloc::{AllocError, Global};
use vm_plan::{Plan, PlanRow, State, grant, is_blocked, page_count, revoke};
use vm_pool::Pool;

// The target of the row at a position falls by one.
fn lower_target(rows: &mut [PlanRow], position: usize)
    requires above { IsRevocable (plan_rows rows.old) position }
    requires held { All (λ row. row.target ≤ row.held) rows.old }
    ensures row { plan_rows rows.new ≡ change_at revoked_row (plan_rows rows.old) position }
    ensures held { All (λ row. row.target ≤ row.held) rows.new }
{
    let row = &mut rows[position];
    row.target -= 1;
}

// Each of these targets falls by one.
fn lower_targets(rows: &mut [PlanRow], plan: &Plan)
    requires can { CanLower (plan_rows rows.old) plan.now }
    requires held { All (λ row. row.target ≤ row.held) rows.old }
    ensures rows { plan_rows rows.new ≡ rows_after (plan_rows rows.old) plan.now }
    ensures held { All (λ row. row.target ≤ row.held) rows.new }
{
    for position in plan.moves() {
        lower_target(rows, position as usize);
    }
}

// The targets that fall. The rows are those after it.
fn plan_falls(
    alloc: Global,
    numbers: &Numbers,
    pool: &Pool,
    state: State,
    rows: &mut [PlanRow],
) -> Result<Plan, AllocError>
    requires few { length pool.now.guests ≤ 256 }
    requires rows { plan_rows rows.old ≡ rows_of pool.now.guests }
    requires held { All (λ row. row.target ≤ row.held) rows.old }
    ensures plan { IfOk result (λ plan. plan ≡ revocations_in (policy_in numbers.now) state pool.now) }
    ensures fair { IfOk result (TakesFromCheapest (hundredths numbers.now.tax) (changed revoked) pool.now) }
    ensures enough { let policy = policy_in numbers.now in
        IfOk result (λ plan. length plan < wanted_in policy state pool.now → EachGuest IsAtMinimum (pool_revoked policy state pool.now)) }
    ensures rows { OnOk result (plan_rows rows.new ≡ rows_of (pool_revoked (policy_in numbers.now) state pool.now).guests) }
    ensures held { OnOk result (All (λ row. row.target ≤ row.held) rows.new) }
    ensures memory { IfErr result (λ _. 0 < length pool.now.guests) }
{
    let plan = revoke(
        alloc,
        state,
        pool.free(),
        &numbers.thresholds,
        numbers.tax,
        rows,
    )?;
    lower_targets(rows, &plan);
    Ok(plan)
}

// A row gives up what it does by paging, and tells how many frames.
fn page_row(state: State, page_rate: u32, row: &mut PlanRow) -> u32
    requires { row.old.target ≤ row.old.held }
    ensures count { result ≡ page_count_of state (row_of row.old) page_rate }
    ensures row { row_of row.new ≡ paged_row state page_rate (row_of row.old) }
    ensures held { row.new.target ≤ row.new.held }
{
    let count = page_count(state, row, page_rate);
    row.held -= count;
    count
}

// Tells what the guest at a position gives up, if it gives up any.
fn push_paged(paged: &mut Vec<Paged>, position: u32, count: u32) -> Result<(), AllocError>
    ensures { OnOk result (paged.new.items ≡ paged.old.items ++ if_paged position count) }
{
    if count > 0 {
        paged.push(Paged { position, count })?;
    }
    Ok(())
}

// Each row gives up what it does by paging. Those that give up any are told.
fn page_rows(
    alloc: Global,
    state: State,
    page_rate: u32,
    rows: &mut [PlanRow],
) -> Result<Paging, AllocError>
    requires few { length rows.old ≤ 256 }
    requires held { All (λ row. row.target ≤ row.held) rows.old }
    ensures list { IfOk result (λ paging. paging ≡ paged_from 0 (row_counts state page_rate (plan_rows rows.old))) }
    ensures rows { OnOk result (plan_rows rows.new ≡ map (paged_row state page_rate) (plan_rows rows.old)) }
    ensures held { OnOk result (All (λ row. row.target ≤ row.held) rows.new) }
    ensures memory { IfErr result (λ _. 0 < length rows.old) }
{
    let mut paged = Vec::new(alloc);
    for position in 0..rows.len() {
        let count = page_row(state, page_rate, &mut rows[position]);
        push_paged(&mut paged, position as u32, count)?;
    }
    Ok(Paging::new(paged))
}

// How many frames are free once guests gave up these: all but those that are held or set aside then.
fn free_after(pool: &Pool, paged: &[Paged]) -> u32
    requires { frames_in paged.now ≤ total_held pool.now.guests }
    ensures { result ≡ pool.now.free + frames_in paged.now }
{
    let mut used = pool.frames() - pool.free();
    for guest in paged {
        used -= guest.count;
    }
    pool.frames() - used
}

// Whether the guest of a row is blocked.
fn waits(state: State, row: &PlanRow) -> bool
    ensures { result ≡ waits_row (blocks_in state) (row_of row.now) }
{
    is_blocked(state, row)
}

// Adds the position of a guest that is blocked.
fn push_blocked(blocked: &mut Vec<u32>, position: u32, is: bool) -> Result<(), AllocError>
    ensures { OnOk result (blocked.new.items ≡ blocked.old.items ++ if_blocked is position) }
{
    if is {
        blocked.push(position)?;
    }
    Ok(())
}

// The positions of the guests that are blocked, in order. Where the state lets all run, no row is looked at.
fn blocked_of(alloc: Global, state: State, rows: &[PlanRow]) -> Result<Blocked, AllocError>
    requires few { length rows.now ≤ 256 }
    ensures list { IfOk result (λ blocked. blocked ≡ waiting_from 0 (blocks_in state) (plan_rows rows.now)) }
    ensures memory { IfErr result (λ _. 0 < length rows.now) }
{
    let mut blocked = Vec::new(alloc);
    if !blocks_in(state) {
        return Ok(Blocked::new(blocked));
    }
    for (position, row) in rows.iter().enumerate() {
        push_blocked(&mut blocked, position as u32, waits(state, row))?;
    }
    Ok(Blocked::new(blocked))
}

/// What a boundary is to take from its guests and give them (Waldspurger, OSDI 2002, sections 5.1, 5.2 and 6.3): targets fall, then
/// guests give up frames, then targets rise, then some fall for guests that would pay more, and at last some guests are blocked. All of
/// it is found before the first move, each list from the frames as the lists before it will leave them.
///
/// Targets fall by as many pages as frames are missing to the goal, beside those free and those that guests hold above their targets
/// (min-funding revocation); in High by none. A guest gives up at most the page rate, and no more than it holds above its target; in
/// Soft it is also no more than it uses above its target; in High none. Each page that is granted goes to the guest whose adjusted
/// ratio is greatest of those that want one: in High while more frames are free than the threshold of Soft, in Soft and Hard while
/// more are free than the next lower threshold and the guest outbids the others, in Low never. In Low guests that hold more than their
/// targets are blocked.
///
/// In High idle memory moves: pages of targets that guests don't use go to guests that would pay more for them, at most as many as
/// the numbers say, and no more than guests want beside the frames that balloons have still to return. No target rises for them
/// here: what balloons return is free at later boundaries, and is granted then.
///
/// The cost is a few steps for each guest, and a logarithm of their number for each page. In High, where no guest that wants to grow may
/// and no page may move, guests are at most asked whether they want to. The only error is a want of memory, where there is a guest,
/// running or not.
pub fn plan_boundary(
    alloc: Global,
    numbers: &Numbers,
    pool: &Pool,
    state: State,
) -> Result<BoundaryPlan, AllocError>
    requires { length pool.now.guests ≤ 256 }
    ensures plan { IfOk result (λ plan. plan ≡ plan_of (policy_in numbers.now) state pool.now) }

    // Each move can be done in its turn, and together they do what the state asks for.
    ensures can { IfOk result (CanCarryOut pool.now) }
    ensures done { IfOk result (λ plan. carried_out plan pool.now ≡ pool_balanced (policy_in numbers.now) state pool.now) }

    // Each page of a target that is taken is that of a guest above its minimum whose adjusted ratio is least then.
    ensures taken_fairly { IfOk result
        (λ plan. TakesFromCheapest (hundredths numbers.now.tax) (changed revoked) pool.now plan.revoked) }

    // There are fewer than are wanted only where no guest is left above its minimum.
    ensures enough { let policy = policy_in numbers.now in
        IfOk result (λ plan. length plan.revoked < wanted_in policy state pool.now → EachGuest IsAtMinimum (pool_revoked policy state pool.now)) }

    // Each page that is granted goes to the guest that offers most while the conditions hold, and the list ends only where they don't.
    ensures granted_fairly { let guests = plan_pool_of (pool_reclaimed (policy_in numbers.now) state pool.now) in
        IfOk result (λ plan. IsGrantList state numbers.now.thresholds (hundredths numbers.now.tax) guests plan.granted) }

    // Each page that moves is given by a guest above its minimum and above what it uses, whose adjusted ratio is least then of those that
    // are. Who pays most for it counts as having it.
    ensures rebalanced_fairly { let guests = (pool_settled (policy_in numbers.now) state pool.now).guests in
        IfOk result (λ plan. GivesFromCheapest (hundredths numbers.now.tax) guests plan.rebalanced) }
    ensures memory { IfErr result (λ _. 0 < length pool.now.guests) }
{
    if is_at_rest(numbers, pool, state) {
        return Ok(nothing(alloc));
    }
    let mut rows = rows_of(alloc, pool)?;
    let revoked = plan_falls(alloc, numbers, pool, state, &mut rows)?;
    let paged = page_rows(alloc, state, numbers.page_rate, &mut rows)?;
    let granted = grant(
        alloc,
        state,
        free_after(pool, paged.as_slice()),
        &numbers.thresholds,
        numbers.tax,
        &rows,
    )?;
    let blocked = blocked_of(alloc, state, &rows)?;
    let rebalanced = plan_rebalancing(alloc, numbers, pool, state, &granted, &mut rows)?;
    Ok(BoundaryPlan {
        revoked,
        paged,
        granted,
        rebalanced,
        blocked,
    })
}
