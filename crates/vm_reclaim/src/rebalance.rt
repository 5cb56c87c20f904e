//! Which targets fall for guests that would pay more, from the rows as grants leave them.
ghost use Rattle.std.specs.Prelude.{◌≡◌, ◌-◌, ◌<◌, ◌≤◌, ◌↔◌, All, IfErr, IfOk, IsTrue, length};
ghost use Rattle.vm_guest.specs.Record.{GuestRecord};
ghost use Rattle.vm_guest.specs.View.{view_of};
ghost use Rattle.vm_plan.specs.Grants.{granted_row};
ghost use Rattle.vm_plan.specs.PlanRow.{row_of, rows_of as plan_rows};
ghost use Rattle.vm_plan.specs.Moves.{EachMove};
ghost use Rattle.vm_plan.specs.Rebalancing.{IsNextGiver, rows_given};
ghost use Rattle.vm_plan.specs.Revocation.{rows_after, IsRevocable};
ghost use Rattle.vm_plan.specs.Row.{change_at};
ghost use Rattle.vm_pool.specs.Pool.{guest_at};
ghost use Rattle.vm_reclaim.specs.Numbers.{policy_in};
ghost use Rattle.vm_reclaim.specs.Planning.{drivers_of, floored_rows, own_driver_in, rebalances_of, returning_in, returning_row, rows_granted, unmet_in, CanRise, IsGrantableRow, MovesPages};
ghost use Rattle.vm_reclaim.specs.Rebalance.{floor_of, giving_row, has_own_driver};
ghost use Rattle.vm_tax.specs.Ratio.{hundredths};

use crate::policy::Numbers;
use std::alloc::{AllocError, Global};
use vm_guest::GuestView;
use vm_plan::{Plan, PlanRow, State, rebalancing};
use vm_pool::Pool;

// Whether a guest has a driver of its own.
fn has_own_driver(view: &GuestView) -> bool
    ensures { (g : GuestRecord) → view.now ≡ view_of g → result ≡ has_own_driver g }
{
    view.own_driver
}

// Whether the guest at a position has one. Where none runs, the row gives nothing in either case.
fn has_own_driver_at(pool: &Pool, position: usize) -> bool
    ensures { result ≡ own_driver_in (guest_at pool.now position) }
{
    match pool.view(position) {
        Some(view) => has_own_driver(&view),
        None => true,
    }
}

// The target of the row at a position rises by one, as a grant leaves it.
fn raise_target(rows: &mut [PlanRow], position: usize)
    requires wants { IsGrantableRow (plan_rows rows.old) position }
    requires held { All (λ row. row.target ≤ row.held) rows.old }
    ensures row { plan_rows rows.new ≡ change_at granted_row (plan_rows rows.old) position }
    ensures held { All (λ row. row.target ≤ row.held) rows.new }
{
    let row = &mut rows[position];
    row.target += 1;
    row.held = row.held.max(row.target);
    row.demand -= 1;
}

// Each of these targets rises by one.
fn raise_targets(rows: &mut [PlanRow], plan: &Plan)
    requires can { CanRise (plan_rows rows.old) plan.now }
    requires held { All (λ row. row.target ≤ row.held) rows.old }
    ensures rows { plan_rows rows.new ≡ rows_granted (plan_rows rows.old) plan.now }
{
    for position in plan.moves() {
        raise_target(rows, position as usize);
    }
}

// The pages that guests want and may have.
fn unmet_demand(rows: &[PlanRow]) -> u32
    requires { length rows.now ≤ 256 }
    ensures { result ≡ unmet_in (plan_rows rows.now) }
{
    let mut pages = 0;
    for row in rows {
        pages += row.demand.min(u64::from(row.cap - row.target)) as u32;
    }
    pages
}

// The frames above the target that the guest of a row doesn't use, which its balloon returns.
fn returning(own_driver: bool, row: &PlanRow) -> u32
    ensures { result ≡ returning_row own_driver (row_of row.now) }
{
    if own_driver {
        row.held.saturating_sub(row.target.max(row.used))
    } else {
        0
    }
}

// So many pages, less the frames that are on their way.
fn less_returning(pages: u32, pool: &Pool, rows: &[PlanRow]) -> u32
    requires { length rows.now ≡ length pool.now.guests }
    ensures { result ≡ pages - returning_in (drivers_of pool.now.guests) (plan_rows rows.now) }
{
    let mut left = pages;
    for position in 0..rows.len() {
        let own_driver = has_own_driver_at(pool, position);
        left = left.saturating_sub(returning(own_driver, &rows[position]));
    }
    left
}

// What the guest of a row can't give without paging.
fn floor_of(own_driver: bool, row: &PlanRow) -> u32
    ensures floor { result ≡ floor_of own_driver (row_of row.now) }
    ensures some { 1 ≤ result }
    ensures within { result ≤ row.now.target }
{
    if own_driver {
        row.target.min(row.min.max(row.used))
    } else {
        row.target
    }
}

// The minimum of a row rises to its floor.
fn raise_floor(own_driver: bool, row: &mut PlanRow)
    ensures { row_of row.new ≡ giving_row own_driver (row_of row.old) }
{
    row.min = floor_of(own_driver, row);
}

// The minimum of each row does.
fn raise_floors(pool: &Pool, rows: &mut [PlanRow])
    requires { length rows.old ≡ length pool.now.guests }
    ensures { plan_rows rows.new ≡ floored_rows (drivers_of pool.now.guests) (plan_rows rows.old) }
{
    for position in 0..rows.len() {
        let own_driver = has_own_driver_at(pool, position);
        raise_floor(own_driver, &mut rows[position]);
    }
}

// Whether pages may move from guest to guest: in High alone.
pub(crate) fn moves_pages(numbers: &Numbers, state: State) -> bool
    ensures { IsTrue result ↔ MovesPages numbers.now.rebalance state }
{
    state == State::High && numbers.rebalance > 0
}

// The targets that fall for guests that would pay more. The rows are those before the grants.
pub(crate) fn plan_rebalancing(
    alloc: Global,
    numbers: &Numbers,
    pool: &Pool,
    state: State,
    granted: &Plan,
    rows: &mut [PlanRow],
) -> Result<Plan, AllocError>
    requires few { length pool.now.guests ≤ 256 }
    requires length { length rows.old ≡ length pool.now.guests }
    requires can { CanRise (plan_rows rows.old) granted.now }
    requires held { All (λ row. row.target ≤ row.held) rows.old }
    ensures plan { let after = rows_granted (plan_rows rows.old) granted.now in
        IfOk result (λ plan. plan ≡ rebalances_of (policy_in numbers.now) state (drivers_of pool.now.guests) after) }
    ensures each_next { let floored = floored_rows (drivers_of pool.now.guests) (rows_granted (plan_rows rows.old) granted.now) in
        let tax = hundredths numbers.now.tax in
        IfOk result (EachMove (λ before giver. IsNextGiver tax (rows_given tax floored before) giver)) }
    ensures applies { let floored = floored_rows (drivers_of pool.now.guests) (rows_granted (plan_rows rows.old) granted.now) in
        IfOk result (EachMove (λ before position. IsRevocable (rows_after floored before) position)) }
    ensures memory { IfErr result (λ _. 0 < length pool.now.guests) }
{
    if !moves_pages(numbers, state) {
        return Ok(Plan::new(alloc));
    }
    raise_targets(rows, granted);
    let wanted = numbers.rebalance.min(unmet_demand(rows));
    let limit = less_returning(wanted, pool, rows);
    raise_floors(pool, rows);
    rebalancing(alloc, numbers.tax, limit, rows)
}
