// Targets that fall and rise, one unit a move.
ghost use Rattle.std.specs.Prelude.{◌≡◌, ◌≤◌, ◌<◌, All, IfErr, OnOk, length};
ghost use Rattle.vm_plan.specs.Grants.{granted_row, grant_list, pool_after};
ghost use Rattle.vm_plan.specs.PlanRow.{pool_of, rows_of};
ghost use Rattle.vm_plan.specs.Rebalancing.{rebalancing_list};
ghost use Rattle.vm_plan.specs.Revocation.{revocation_list, revoked_row, rows_after, IsRevocable};
ghost use Rattle.vm_plan.specs.Row.{change_at};
ghost use Rattle.vm_steer.specs.Turns.{rows_raised, AreLowered, AreRaised, CanLower, CanRise, IsGrantableRow};
ghost use Rattle.vm_tax.specs.Ratio.{hundredths};

use std::alloc::{AllocError, Global};
use vm_plan::{Plan, PlanRow, State, Thresholds, grant, rebalancing, revocations};

// The target of the row at a position falls by one.
fn lower_target(rows: &mut [PlanRow], position: usize)
    requires above { IsRevocable (rows_of rows.old) position }
    requires held { All (λ row. row.target ≤ row.held) rows.old }
    ensures row { rows_of rows.new ≡ change_at revoked_row (rows_of rows.old) position }
    ensures held { All (λ row. row.target ≤ row.held) rows.new }
{
    let row = &mut rows[position];
    row.target -= 1;
}

// Each of these targets falls by one.
fn lower_targets(rows: &mut [PlanRow], plan: &Plan)
    requires can { CanLower (rows_of rows.old) plan.now }
    requires held { All (λ row. row.target ≤ row.held) rows.old }
    ensures rows { rows_of rows.new ≡ rows_after (rows_of rows.old) plan.now }
    ensures held { All (λ row. row.target ≤ row.held) rows.new }
{
    for position in plan.moves() {
        lower_target(rows, position as usize);
    }
}

// The target of the row at a position rises by one, as a grant leaves it.
fn raise_target(rows: &mut [PlanRow], position: usize)
    requires wants { IsGrantableRow (rows_of rows.old) position }
    requires held { All (λ row. row.target ≤ row.held) rows.old }
    ensures row { rows_of rows.new ≡ change_at granted_row (rows_of rows.old) position }
    ensures held { All (λ row. row.target ≤ row.held) rows.new }
{
    let row = &mut rows[position];
    row.target += 1;
    row.held = row.held.max(row.target);
    row.demand -= 1;
}

// Each of these targets rises by one.
fn raise_targets(rows: &mut [PlanRow], plan: &Plan)
    requires can { CanRise (rows_of rows.old) plan.now }
    requires held { All (λ row. row.target ≤ row.held) rows.old }
    ensures rows { rows_of rows.new ≡ rows_raised (rows_of rows.old) plan.now }
    ensures held { All (λ row. row.target ≤ row.held) rows.new }
{
    for position in plan.moves() {
        raise_target(rows, position as usize);
    }
}

// So many targets fall by revocation. A want of memory is the only error.
pub(crate) fn revoke_targets(
    alloc: Global,
    tax: u32,
    wanted: u64,
    rows: &mut [PlanRow],
) -> Result<(), AllocError>
    requires few { length rows.old ≤ 256 }
    requires tax { tax ≤ 9999 }
    requires held { All (λ row. row.target ≤ row.held) rows.old }
    ensures rows { let list = revocation_list (hundredths tax) wanted (rows_of rows.old) in
        OnOk result (rows_of rows.new ≡ rows_after (rows_of rows.old) list) }
    ensures lowered { let list = revocation_list (hundredths tax) wanted (rows_of rows.old) in
        OnOk result (AreLowered list (rows_of rows.old) (rows_of rows.new)) }
    ensures held { OnOk result (All (λ row. row.target ≤ row.held) rows.new) }
{
    let plan = revocations(alloc, tax, wanted, rows)?;
    lower_targets(rows, &plan);
    Ok(())
}

// Targets rise by the grants that the state allows.
pub(crate) fn grant_targets(
    alloc: Global,
    state: State,
    free: u32,
    thresholds: &Thresholds,
    tax: u32,
    rows: &mut [PlanRow],
) -> Result<(), AllocError>
    requires few { length rows.old ≤ 256 }
    requires tax { tax ≤ 9999 }
    requires held { All (λ row. row.target ≤ row.held) rows.old }
    ensures rows { let pool = pool_of free rows.old in
        OnOk result (rows_of rows.new ≡ (pool_after pool (grant_list state thresholds.now (hundredths tax) pool)).rows) }
    ensures raised { let pool = pool_of free rows.old in
        OnOk result (AreRaised (grant_list state thresholds.now (hundredths tax) pool) (rows_of rows.old) (rows_of rows.new)) }
    ensures held { OnOk result (All (λ row. row.target ≤ row.held) rows.new) }
{
    let plan = grant(alloc, state, free, thresholds, tax, rows)?;
    raise_targets(rows, &plan);
    Ok(())
}

// At most so many targets fall for domains that would pay more.
pub(crate) fn rebalance_targets(
    alloc: Global,
    tax: u32,
    limit: u32,
    rows: &mut [PlanRow],
) -> Result<(), AllocError>
    requires few { length rows.old ≤ 256 }
    requires tax { tax ≤ 9999 }
    requires held { All (λ row. row.target ≤ row.held) rows.old }
    ensures rows { let list = rebalancing_list (hundredths tax) limit (rows_of rows.old) in
        OnOk result (rows_of rows.new ≡ rows_after (rows_of rows.old) list) }
    ensures lowered { let list = rebalancing_list (hundredths tax) limit (rows_of rows.old) in
        OnOk result (AreLowered list (rows_of rows.old) (rows_of rows.new)) }
{
    let plan = rebalancing(alloc, tax, limit, rows)?;
    lower_targets(rows, &plan);
    Ok(())
}
