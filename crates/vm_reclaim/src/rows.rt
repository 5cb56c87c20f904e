//! What the policy knows of the guests.
ghost use Rattle.std.specs.Prelude.{◌≡◌, ◌<◌, ◌≤◌, All, IfErr, IfOk, IfSome, OnOk, length};
ghost use Rattle.vm_plan.specs.PlanRow.{row_of as plan_row, rows_of as plan_rows};
ghost use Rattle.vm_guest.specs.Good.{IsGood};
ghost use Rattle.vm_pool.specs.Pool.{guest_at, EachGuest};
ghost use Rattle.vm_reclaim.specs.Rows.{row_at, rows_of};

use std::alloc::{AllocError, Global};
use vm_plan::PlanRow;
use vm_pool::Pool;

// The row of the guest at a position: where none runs, nothing can be revoked, and nothing is wanted.
pub(crate) fn row_at(pool: &Pool, position: usize) -> PlanRow
    ensures row { plan_row result ≡ row_at (guest_at pool.now position) }
    ensures held { result.target ≤ result.held }
    ensures good { IfSome (guest_at pool.now position) IsGood }
{
    match pool.view(position) {
        Some(view) => PlanRow {
            shares: view.shares,
            active: view.active,
            min: view.min,
            cap: view.cap,
            target: view.target,
            held: view.held,
            used: view.used,
            demand: view.demand,
        },
        None => PlanRow {
            shares: 1,
            active: 0,
            min: 1,
            cap: 1,
            target: 1,
            held: 1,
            used: 0,
            demand: 0,
        },
    }
}

// A row for each position.
pub(crate) fn rows_of(alloc: Global, pool: &Pool) -> Result<Vec<PlanRow>, AllocError>
    ensures rows { IfOk result (λ rows. plan_rows rows.items ≡ rows_of pool.now.guests) }
    ensures held { IfOk result (λ rows. All (λ row. row.target ≤ row.held) rows.items) }
    ensures length { IfOk result (λ rows. length rows.items ≡ length pool.now.guests) }
    ensures good { OnOk result (EachGuest IsGood pool.now) }
    ensures memory { IfErr result (λ _. 0 < length pool.now.guests) }
{
    let mut rows = Vec::with_capacity(alloc, pool.len())?;
    for position in 0..pool.len() {
        rows.push(row_at(pool, position))?;
    }
    Ok(rows)
}
