//! Which guests have to give pages up.
ghost use Rattle.std.specs.Prelude.{◌≡◌, ◌+◌, ℕ, ◌<◌, ◌≤◌, All, IfOk, IfErr, IfSome, length, slice_get};
ghost use Rattle.vm_tax.specs.Ratio.{hundredths};
ghost use Rattle.vm_plan.specs.Moves.{EachMove};
ghost use Rattle.vm_plan.specs.PlanRow.{rows_of};
ghost use Rattle.vm_plan.specs.Runs.{lowered_row};
ghost use Rattle.vm_plan.specs.Revocation.{shortfall_of, rows_after, IsRevocable, IsRevocationList, revocation_list};
ghost use Rattle.vm_plan.specs.Row.{change_at};
ghost use Rattle.vm_plan.specs.Track.{IsTracked};
ghost use Rattle.vm_plan.specs.declared.tracking.Kind.TheVariants.{Revocable};

use crate::plan::Plan;
use crate::revocation_runs::fall_length;
use crate::row::PlanRow;
use crate::state::State;
use crate::thresholds::Thresholds;
use crate::tracking::{copy_of, track_revocable};
use std::alloc::{AllocError, Global};
use vm_tax::Winners;

/// How many revocations the goal wants.
fn shortfall(state: State, free: u32, thresholds: &Thresholds, rows: &[PlanRow]) -> u64
    requires few { length rows.now ≤ 256 }
    requires held { All (λ row. row.target ≤ row.held) rows.now }
    ensures { result ≡ shortfall_of state free thresholds.now (rows_of rows.now) }
{
    if state == State::High {
        return 0;
    }
    let coming: u64 = rows
        .iter()
        .map(|row| u64::from(row.held - row.target))
        .sum();
    u64::from(thresholds.goal)
        .saturating_sub(u64::from(free))
        .saturating_sub(coming)
}

/// Takes so many pages from a guest that is as many above its minimum.
fn take_pages(tax: u32, rows: &mut [PlanRow], winners: &mut Winners, position: u32, count: u32)
    requires tax { tax ≤ 9999 }
    requires within { position < length rows.old }
    requires above { IfSome (slice_get rows.old position) (λ row. row.min + count ≤ row.target) }
    requires tracked { IsTracked Revocable tax winners.old (rows_of rows.old) }
    ensures taken { rows_of rows.new ≡ change_at (lowered_row count) (rows_of rows.old) position }
    ensures tracked { IsTracked Revocable tax winners.new (rows_of rows.new) }
{
    let row = &mut rows[position as usize];
    row.target -= count;
    winners.set(position, row.revocable_price(tax));
}

/// So many revocations, one page each, from the least price up: min-funding revocation (Waldspurger, OSDI 2002, sections 5.1
/// and 5.2).
///
/// `tax` is in hundredths of a percent. The plan has as many entries as are wanted, fewer only where no guest is above its
/// minimum any more. An entry costs a logarithm of the number of rows, and a guest that loses many in a row loses them at once; where
/// none is wanted there is no cost at all. The only error is a want of memory, where there is a row and a page is wanted.
pub fn revocations(
    alloc: Global,
    tax: u32,
    wanted: u64,
    rows: &[PlanRow],
) -> Result<Plan, AllocError>
    requires few { length rows.now ≤ 256 }
    requires tax { tax ≤ 9999 }
    ensures list { IfOk result (IsRevocationList (hundredths tax) wanted (rows_of rows.now)) }

    // The same list, as a function of the arguments.
    ensures exact { IfOk result (λ plan. plan ≡ revocation_list (hundredths tax) wanted (rows_of rows.now)) }

    // Each entry can be taken where it stands.
    ensures within { IfOk result (All (λ position. position < length rows.now)) }
    ensures applies { IfOk result
        (EachMove (λ before position. IsRevocable (rows_after (rows_of rows.now) before) position)) }
    ensures memory { IfErr result (λ _. (0 < length rows.now) × (0 < wanted)) }
{
    if wanted == 0 {
        return Ok(Plan::new(alloc));
    }
    let mut after = copy_of(alloc, rows)?;
    let mut winners = track_revocable(alloc, tax, rows)?;
    let mut plan = Plan::new(alloc);
    let mut left = wanted;
    while left > 0 {
        let Some(position) = winners.least() else {
            break;
        };
        let before = plan.count_at_end(position);
        let count = fall_length(left, tax, &after, &mut winners, position, before);
        take_pages(tax, &mut after, &mut winners, position, count);
        plan.push(position, count)?;
        left -= u64::from(count);
    }
    Ok(plan)
}

/// The revocations that a state asks for, one page each, from the least price up: min-funding revocation (Waldspurger, OSDI
/// 2002, sections 5.1 and 5.2).
///
/// `free` is the number of free frames, and `tax` is in hundredths of a percent. The plan has as many entries as frames are
/// missing to the goal, beside those free and those that guests hold above their targets; fewer only where no guest is above
/// its minimum any more. In High it is empty. An entry costs a logarithm of the number of rows. The only error is a want of
/// memory, where there is a row and a page is wanted.
pub fn revoke(
    alloc: Global,
    state: State,
    free: u32,
    thresholds: &Thresholds,
    tax: u32,
    rows: &[PlanRow],
) -> Result<Plan, AllocError>
    requires few { length rows.now ≤ 256 }
    requires tax { tax ≤ 9999 }
    requires held { All (λ row. row.target ≤ row.held) rows.now }
    ensures list { let wanted = shortfall_of state free thresholds.now (rows_of rows.now) in
        IfOk result (IsRevocationList (hundredths tax) wanted (rows_of rows.now)) }

    // The same list, as a function of the arguments.
    ensures exact { let wanted = shortfall_of state free thresholds.now (rows_of rows.now) in
        IfOk result (λ plan. plan ≡ revocation_list (hundredths tax) wanted (rows_of rows.now)) }

    // Each entry can be taken where it stands.
    ensures within { IfOk result (All (λ position. position < length rows.now)) }
    ensures applies { IfOk result
        (EachMove (λ before position. IsRevocable (rows_after (rows_of rows.now) before) position)) }
    ensures memory { let wanted = shortfall_of state free thresholds.now (rows_of rows.now) in
        IfErr result (λ _. (0 < length rows.now) × (0 < wanted)) }
{
    let wanted = shortfall(state, free, thresholds, rows);
    revocations(alloc, tax, wanted, rows)
}
